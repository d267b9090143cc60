// What makes the masks of records.

ghost use Rattle.std.specs.Prelude.{◌≡◌, ◌≤◌, IfOk, OnOk};
ghost use Rattle.longdust.specs.declared.LongdustOptions.{LongdustOptions};
ghost use Rattle.masker.specs.Run.{Making, by_options, Makes, ln_of, f_of};

use crate::Masker;
use crate::tables_kept::serves_all;
use crate::tables_lent::TableRoom;
use checks::Refusal;
use intervals::Interval;
use longdust::LongdustOptions;
use std::alloc::AllocError;

/// What makes the mask of one record after the other.
pub trait Maker {
    /// The options that masks are made by.
    ghost options: { Self → LongdustOptions };

    /// What becomes of a record's letters.
    ghost making: { Self → Making };

    /// Makes the mask of a record's letters: how many intervals it has, which stand at the front of the list, their marks beside them; or why the
    /// record is refused. Fails where there is no memory.
    fn make(
        &mut self,
        letters: &[u8],
        list: &mut Vec<Interval>,
        marks: &mut Vec<u8>,
    ) -> Result<Result<usize, Refusal>, AllocError>
        ensures makes { IfOk result (λ r. Makes (making self.old) letters.now list.new.items marks.new.items r) }
        ensures making { making self.new ≡ making self.old }
        ensures options { options self.new ≡ options self.old };

    /// The options.
    fn options(&self) -> LongdustOptions
        ensures { result ≡ options self.now };

    /// Puts the two tables by which a record with these letters is masked into the room: ln of w + 1 entries, f of w + 2. Fails where there is no
    /// memory.
    fn fill_tables(&self, letters: &[u8], room: &mut TableRoom) -> Result<(), AllocError>
        requires kmer { (options self.now).kmer ≤ 12 }
        requires window { (options self.now).window_size ≤ 65535 }
        ensures ln { OnOk result (room.new.ln.items ≡ ln_of (options self.now)) }
        ensures f { OnOk result (room.new.f.items ≡ f_of (options self.now) letters.now) };
}

impl Maker for Masker {
    ghost options = { λ m. m.options };

    ghost making = { λ m. by_options m.options };

    fn options(&self) -> LongdustOptions {
        self.options
    }

    fn make(
        &mut self,
        letters: &[u8],
        list: &mut Vec<Interval>,
        marks: &mut Vec<u8>,
    ) -> Result<Result<usize, Refusal>, AllocError> {
        self.mask(letters, list, marks)
    }

    // They are the masker's own where one filling serves all records.
    fn fill_tables(&self, letters: &[u8], room: &mut TableRoom) -> Result<(), AllocError> {
        if serves_all(self.options) {
            room.copy(self.tables.ln.as_slice(), self.tables.f.as_slice())?;
            return Ok(());
        }
        room.fill(self.options, letters)
    }
}
