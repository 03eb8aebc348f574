ghost use Rattle.std.specs.Prelude.{◌≡◌};
ghost use Rattle.spec_reading.specs.Reading as reading;
ghost use Rattle.net_wire.specs.ReaderCalls.{Gives, form_at};

use super::Reader;
use crate::Unread;
use ax_types::limits::{MAX_NAME, MAX_TEXT};
use ax_types::{Bounded, Form, Key, KeyForm, Name, NameForm, Text, TextForm};

impl<'a> Reader<'a> {
    /// So many letters of a form.
    #[tactic(auto, unfolding(crate::specs::ReaderCalls::form_at))]
    fn read_form<F: Form>(&mut self, count: usize) -> Result<Bounded<F>, Unread>
        ensures { Gives result self.new (form_at F.is_form count self.old) }
    {
        if self.rest.len() < count {
            return Err(if self.rest.is_empty() || F::fits(self.rest) {
                Unread::Part
            } else {
                Unread::Wrong
            });
        }
        let (letters, rest) = self.rest.split_at(count);
        match Bounded::<F>::read(self.alloc, letters)? {
            None => Err(Unread::Wrong),
            Some(text) => {
                self.rest = rest;
                Ok(text)
            }
        }
    }

    /// The name of a resource: one byte of length, and its letters.
    #[tactic(auto, unfolding(spec_reading::specs::Reading::counted_at), using(crate::proofs::Forms::name_letters))]
    pub fn read_name(&mut self) -> Result<Name, Unread>
        ensures { Gives result self.new (reading.name_at self.old) }
    {
        let count = self.read_small(1, MAX_NAME as u8)?;
        self.read_form::<NameForm>(count as usize)
    }

    /// The key of a map or a multimap, spelled as a name is.
    #[tactic(auto, unfolding(spec_reading::specs::Reading::counted_at), using(crate::proofs::Forms::name_letters))]
    pub fn read_key(&mut self) -> Result<Key, Unread>
        ensures { Gives result self.new (reading.name_at self.old) }
    {
        let count = self.read_small(1, MAX_NAME as u8)?;
        self.read_form::<KeyForm>(count as usize)
    }

    /// A text: one byte of length, and its letters.
    #[tactic(auto, unfolding(spec_reading::specs::Reading::counted_at), using(crate::proofs::Forms::text_letters))]
    pub fn read_text(&mut self) -> Result<Text, Unread>
        ensures { Gives result self.new (reading.text_at self.old) }
    {
        let count = self.read_small(1, MAX_TEXT as u8)?;
        self.read_form::<TextForm>(count as usize)
    }
}
