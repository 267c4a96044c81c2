ghost use Rattle.std.specs.Prelude.{◌≡◌, ◌++◌, ◌∷◌, [], IfOk, OnOk};
ghost use Rattle.form_urlencoded.specs.Form as form;
ghost use Rattle.shop_model.specs.asked.Interactions.{path_of};
ghost use Rattle.shop_journal.specs.Pairs as spec;

use form_urlencoded::byte_serialize;
use itoa::Buffer;
use shop_model::{Interaction, Parameter};
use shop_text::{Memory, Text};
use std::alloc::Global;

/// A target of which some is written.
#[derive(Debug, Drop)]
pub(crate) struct Target {
    pub(crate) text: Text,
    /// What stands before the next pair.
    pub(crate) mark: u8,
}

impl Target {
    /// The path alone.
    pub(crate) fn new(alloc: Global, interaction: Interaction) -> Result<Target, Memory>
        ensures { IfOk result (spec.Begins (path_of interaction)) }
    {
        Ok(Target {
            text: Text::copy(alloc, interaction.path().as_bytes())?,
            mark: b'?',
        })
    }

    pub(crate) fn add(&mut self, name: &[u8], value: &[u8]) -> Result<(), Memory>
        ensures { OnOk result (spec.Adds ((name.now, value.now) ∷ []) self.old self.new) }
    {
        self.text.push(&[self.mark])?;
        add_serialized(&mut self.text, name)?;
        self.text.push(b"=")?;
        add_serialized(&mut self.text, value)?;
        self.mark = b'&';
        Ok(())
    }

    pub(crate) fn add_text(&mut self, parameter: Parameter, text: &Text) -> Result<(), Memory>
        ensures { OnOk result (spec.Adds (spec.text_pair parameter text.now ∷ []) self.old self.new) }
    {
        self.add(parameter.name(), text.bytes())
    }

    pub(crate) fn add_bytes(&mut self, parameter: Parameter, bytes: &[u8]) -> Result<(), Memory>
        ensures { OnOk result (spec.Adds (spec.text_pair parameter bytes.now ∷ []) self.old self.new) }
    {
        self.add(parameter.name(), bytes)
    }

    pub(crate) fn add_number(&mut self, parameter: Parameter, number: u64) -> Result<(), Memory>
        ensures { OnOk result (spec.Adds (spec.number_pair parameter number ∷ []) self.old self.new) }
    {
        let mut buffer = Buffer::new();
        self.add(parameter.name(), buffer.format(number).as_bytes())
    }

    /// Adds a number that may be absent.
    pub(crate) fn add_optional(
        &mut self,
        parameter: Parameter,
        number: Option<u32>,
    ) -> Result<(), Memory>
        ensures { OnOk result (spec.Adds (spec.optional_pair parameter number) self.old self.new) }
    {
        match number {
            Some(number) => self.add_number(parameter, u64::from(number)),
            None => Ok(()),
        }
    }
}

/// Adds the bytes as a form writes them.
pub(crate) fn add_serialized(text: &mut Text, bytes: &[u8]) -> Result<(), Memory>
    ensures { OnOk result (text.new ≡ text.old ++ form.byte_serialize bytes.now) }
{
    for piece in byte_serialize(bytes) {
        text.push(piece.as_bytes())?;
    }
    Ok(())
}
