use shop_text::*;
use std::alloc::Global;
use std::test::Fail;

/// Whether a text was made that reads so.
fn reads(made: Result<Text, Memory>, want: &str) -> Result<bool, Memory> {
    Ok(made?.bytes() == want.as_bytes())
}

#[test]
fn numbers_in_syllables(rt: HostRuntime) -> Result<(), Fail> {
    let alloc = rt.alloc();
    let cases = [
        (0, "BA", "ba"),
        (10, "OGBA", "ogba"),
        (2880, "ALININBA", "alininba"),
        (1_345_679, "OGRIRESEATULNG", "ogrireseatulng"),
    ];
    for (number, name, small) in cases {
        assert!(rt; reads(digsyl(alloc, number), name)?);
        assert!(rt; reads(digsyl_lower(alloc, number), small)?);
    }
    Ok(())
}

#[test]
fn numbers_from_syllables(rt: HostRuntime) {
    let cases = [
        ("BA", Some(0)),
        ("OGBA", Some(10)),
        ("RIRE", Some(34)),
        ("RISE", Some(35)),
        ("REALNGRENGATULALNGSE", Some(u32::MAX)),
        ("REALNGRENGATULALNGAT", None),
        ("NGNGNGNGNGNGNGNGNGNG", None),
        ("BARISE", None),
        ("BABA", None),
        ("rise", None),
        ("RIS", None),
        ("RISO", None),
        ("", None),
    ];
    for (text, want) in cases {
        assert!(rt; undigsyl(text.as_bytes()) == want);
    }
}

#[test]
fn amounts_in_cents(rt: HostRuntime) -> Result<(), Fail> {
    let cases = [
        (5, "0.05"),
        (2776, "27.76"),
        (u64::MAX, "184467440737095516.15"),
    ];
    for (cents, want) in cases {
        assert!(rt; reads(cents_text(rt.alloc(), cents), want)?);
    }
    Ok(())
}

#[test]
fn days_as_dates(rt: HostRuntime) -> Result<(), Fail> {
    let cases = [
        (0, "1970-01-01"),
        (8837, "1994-03-13"),
        (11_016, "2000-02-29"),
        (2_932_896, "9999-12-31"),
    ];
    for (day, want) in cases {
        assert!(rt; reads(day_text(rt.alloc(), day), want)?);
    }
    Ok(())
}

#[test]
fn escaped_bytes(rt: HostRuntime) -> Result<(), Fail> {
    let cases = [
        ("", ""),
        ("plain 'text'", "plain 'text'"),
        ("<a href=\"?x&y\">", "&lt;a href=&quot;?x&amp;y&quot;&gt;"),
        ("&&end", "&amp;&amp;end"),
    ];
    for (bytes, want) in cases {
        assert!(rt; reads(escape(rt.alloc(), bytes.as_bytes()), want)?);
    }
    Ok(())
}

#[test]
fn bytes_without_case(rt: HostRuntime) {
    let cases = [
        ("Grant", "gRA", true),
        ("Grant", "grant", true),
        ("Gr", "gra", false),
        ("Grant", "ra", false),
        ("Grant", "", true),
        ("a[", "A{", false),
    ];
    for (text, front, begins) in cases {
        assert!(rt; fold_begins(text.as_bytes(), front.as_bytes()) == begins);
    }
    assert!(rt; fold_eq(b"@AZ[", b"@az["));
    assert!(rt; !fold_eq(b"ab", b"abc"));
}

/// Pushes one of each kind.
fn push_each(text: &mut Text) -> Result<(), Memory> {
    text.reserve(64)?;
    text.push(b"of ")?;
    text.push_decimal(1_000)?;
    text.push_escaped(b" & ")?;
    text.push_cents(1_234)?;
    text.push(b" ")?;
    text.push_day(1)?;
    text.push_digsyl(7)?;
    text.push_digsyl_lower(7)?;
    Ok(())
}

/// Whether the text is one of these bytes.
fn is_text(alloc: Global, text: &Text, bytes: &[u8]) -> Result<bool, Memory> {
    Ok(*text == Text::copy(alloc, bytes)?)
}

/// Whether what is pushed stands at the end.
fn adds_at_the_end(alloc: Global, text: &mut Text) -> Result<bool, Memory> {
    push_each(text)?;
    is_text(alloc, text, b"of 1000 &amp; 12.34 1970-01-02ULul")
}

/// Whether the text begins so, and is empty once it is cleared.
fn is_cut(text: &mut Text, front: &[u8]) -> bool {
    text.truncate(front.len());
    let cut = text.bytes() == front;
    text.clear();
    cut && text.len() == 0
}

#[test]
fn pushes_add_at_the_end(rt: HostRuntime) -> Result<(), Fail> {
    let mut text = Text::with_capacity(rt.alloc(), 4)?;
    assert!(rt; text.is_empty());
    assert!(rt; adds_at_the_end(rt.alloc(), &mut text)?);
    assert!(rt; is_cut(&mut text, b"of"));
    Ok(())
}

/// Whether a list gets three numbers, and its copy has them as it has.
fn is_copied(list: &mut Listed<u32>) -> Result<bool, Memory> {
    for number in [3, 1, 2] {
        list.push(number)?;
    }
    Ok(list.copy()?.as_slice() == list.as_slice())
}

/// Whether a list of a list's vector has three numbers in their order.
fn has_three(list: Listed<u32>) -> bool {
    Listed::from_vec(list.into_vec()).as_slice() == [3, 1, 2].as_slice()
}

#[test]
fn a_list_keeps_its_order(rt: HostRuntime) -> Result<(), Fail> {
    let mut list = Listed::with_capacity(rt.alloc(), 1)?;
    assert!(rt; is_copied(&mut list)?);
    assert!(rt; has_three(list));
    Ok(())
}

/// Whether the caption stands so behind other bytes.
fn stands(alloc: Global, caption: &Caption, want: &str) -> Result<bool, Memory> {
    let mut text = Text::copy(alloc, b"By ")?;
    text.push_caption(caption)?;
    Ok(text.bytes().strip_prefix(b"By ") == Some(want.as_bytes()))
}

/// Whether the caption is that of a text of these bytes.
fn is_caption_of(alloc: Global, caption: &Caption, bytes: &str) -> Result<bool, Memory> {
    Ok(*caption == Caption::of(Text::copy(alloc, bytes.as_bytes())?))
}

/// Whether a caption of these bytes gives them back.
fn gives_back(made: Result<Caption, Memory>, bytes: &str) -> Result<bool, Memory> {
    Ok(made?.into_text().bytes() == bytes.as_bytes())
}

/// Whether the caption of these bytes is of them, stands so in a page, and tells whether it is plain.
fn is_caption(
    alloc: Global,
    caption: &Caption,
    bytes: &str,
    want: &str,
    plain: bool,
) -> Result<bool, Memory> {
    Ok(
        caption.is_plain() == plain
            && stands(alloc, caption, want)?
            && is_caption_of(alloc, caption, bytes)?,
    )
}

#[test]
fn captions_as_they_stand_in_a_page(rt: HostRuntime) -> Result<(), Fail> {
    let alloc = rt.alloc();
    let cases = [
        ("", "", true),
        ("plain 'text'", "plain 'text'", true),
        ("fish & <chips>", "fish &amp; &lt;chips&gt;", false),
        ("ends in \"", "ends in &quot;", false),
    ];
    for (bytes, want, plain) in cases {
        let caption = Caption::copy(alloc, bytes.as_bytes());
        assert!(rt; is_caption(alloc, &caption?, bytes, want, plain)?);
        assert!(rt; gives_back(Caption::copy(alloc, bytes.as_bytes()), bytes)?);
    }
    Ok(())
}

/// A text that may have several owners.
fn shared(alloc: Global, bytes: &[u8]) -> Result<Shared<Text>, Memory> {
    Shared::new(alloc, Text::copy(alloc, bytes)?)
}

/// Whether a second owner has these bytes with the first, and once the first is gone.
fn outlives(first: Shared<Text>, bytes: &[u8]) -> Result<bool, Memory> {
    let second = first.share()?;
    let same = first.get().bytes() == second.get().bytes();
    drop(first);
    Ok(same && second.get().bytes() == bytes)
}

#[test]
fn a_value_outlives_its_first_owner(rt: HostRuntime) -> Result<(), Fail> {
    assert!(rt; outlives(shared(rt.alloc(), b"one")?, b"one")?);
    Ok(())
}
