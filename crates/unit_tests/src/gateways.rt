use shop_edges::{Charge, Gateway, Reason, Verdict};
use shop_gateway::{Emulator, ScriptGateway};
use shop_model::{AuthId, CardNumber, CardType, Month};
use shop_text::{Listed, Memory};
use std::alloc::Global;
use std::test::Fail;

/// A card that is approved of, up to the limit.
const NUMBER: &str = "4111222233334444";

/// A card that isn't.
const STOLEN: &str = "4111222233330000";

/// The verdict on a charge whose key has another.
const REUSED: Verdict = Verdict::Denied(Reason::Reused);

/// The verdict on a charge of a card that isn't approved of.
const DENIED: Verdict = Verdict::Denied(Reason::Stolen);

/// The verdict on a charge above the limit.
const LIMIT: Verdict = Verdict::Denied(Reason::Limit);

/// The verdict on call 2 of 27.76.
fn approved() -> Verdict {
    Verdict::Approved(AuthId::of(111_225_009_362_787))
}

/// What caller 1 asks for in a call, if the card's number has its form.
fn charge(call: u64, cents: u64, card: CardType, number: &str) -> Option<Charge> {
    Some(Charge {
        caller: 1,
        call,
        cents,
        card,
        number: CardNumber::of(number.as_bytes())?,
        expiry: Month::of(b"2027-05")?,
    })
}

/// Whether the last answer that the gateway tells of is this verdict on the charge.
fn is_told_last(gateway: &Emulator, charge: &Charge, verdict: Verdict) -> bool {
    match gateway.answers().last() {
        Some(told) => told.get().verdict == verdict && told.get().charge.is_same(charge),
        None => false,
    }
}

/// Whether a gateway gives this verdict on a charge and tells of it, and has so many entries then.
fn is_authorized(
    gateway: &mut Emulator,
    charge: &Charge,
    verdict: Verdict,
    entries: usize,
) -> bool {
    gateway.authorize(charge) == verdict
        && gateway.ledger().len() == entries
        && is_told_last(gateway, charge, verdict)
}

/// A call, its cents, card and number, the verdict that is wanted, and the entries then.
type Case = (u64, u64, CardType, &'static str, Verdict, usize);

/// Whether a gateway gives these verdicts on charges that come one after another.
fn are_authorized(gateway: &mut Emulator, cases: &[Case]) -> bool {
    for (call, cents, card, number, verdict, entries) in cases {
        let Some(charge) = charge(*call, *cents, *card, number) else {
            return false;
        };
        if !is_authorized(gateway, &charge, *verdict, *entries) {
            return false;
        }
    }
    true
}

#[test]
fn a_key_has_one_entry(rt: HostRuntime) {
    let cases = [
        (2, 2776, CardType::Visa, NUMBER, approved(), 1),
        (2, 2776, CardType::Visa, NUMBER, approved(), 1),
        (2, 2776, CardType::Amex, NUMBER, REUSED, 1),
        (3, 924, CardType::Visa, STOLEN, DENIED, 2),
        (4, 1_000_001, CardType::Visa, NUMBER, LIMIT, 3),
        (
            5,
            1_000_000,
            CardType::Visa,
            NUMBER,
            Verdict::Approved(AuthId::of(112_222_236_384_480)),
            4,
        ),
        (4, 1_000_001, CardType::Visa, NUMBER, LIMIT, 4),
    ];
    let mut gateway = Emulator::new(rt.alloc());
    assert!(rt; are_authorized(&mut gateway, &cases));
    assert!(rt; gateway.answers().len() == 7);
}

/// Whether a gateway gives this verdict on a charge, and has so many answers and faults then.
fn is_answered(
    gateway: &mut ScriptGateway<Emulator>,
    charge: &Charge,
    verdict: Verdict,
    answers: usize,
    faults: u64,
) -> bool {
    gateway.authorize(charge) == verdict
        && gateway.inner().answers().len() == answers
        && gateway.faults() == faults
}

/// A gateway whose second call fails.
fn failing(alloc: Global) -> Result<ScriptGateway<Emulator>, Memory> {
    let fails = Listed::from_vec(vec![in alloc; 2]?);
    Ok(ScriptGateway::new(Emulator::new(alloc), fails))
}

/// Whether a gateway approves of a charge, fails, and approves again.
fn fails_once(gateway: &mut ScriptGateway<Emulator>, charge: &Charge) -> bool {
    is_answered(gateway, charge, approved(), 1, 0)
        && is_answered(gateway, charge, Verdict::Failed, 1, 1)
        && is_answered(gateway, charge, approved(), 2, 1)
}

#[test]
fn a_listed_call_fails(rt: HostRuntime) -> Result<(), Fail> {
    let charge = charge(2, 2776, CardType::Visa, NUMBER).ok_or("not in its form")?;
    assert!(rt; fails_once(&mut failing(rt.alloc())?, &charge));
    Ok(())
}

/// Whether the text is a card's number, and whether it is a month.
fn forms(text: &str) -> (bool, bool) {
    let bytes = text.as_bytes();
    (CardNumber::of(bytes).is_some(), Month::of(bytes).is_some())
}

#[test]
fn forms_of_cards(rt: HostRuntime) {
    for (text, number, month) in [
        ("411122223333", true, false),
        ("4111222233334444555", true, false),
        ("41112222333", false, false),
        ("41112222333344445555", false, false),
        ("41112222333x", false, false),
        ("2027-01", false, true),
        ("0000-12", false, true),
        ("2027-00", false, false),
        ("2027-13", false, false),
        ("2027-5", false, false),
        ("2027-005", false, false),
        ("2027/05", false, false),
        ("2o27-05", false, false),
        ("2027-+5", false, false),
        ("", false, false),
    ] {
        assert!(rt; forms(text) == (number, month), "{text}");
    }
}
