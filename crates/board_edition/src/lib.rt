// Of which edition a file is, which a converter tests first (document 02, U8).
#![tactic(auto)]

ghost use Rattle.std.specs.Prelude.{◌≡◌};
ghost use Rattle.board_edition.specs.Edition.{edition_test, mark_of};

use board_words::{Kind, Word};
use refusals::Refusal;

// The mark of each edition.
pub const FULL: u32 = 0;

pub const SHORT: u32 = 1;

#[derive(Clone, Copy)]
pub enum Edition {
    Full,
    Short,
}

impl Edition {
    pub fn mark(self) -> u32
        ensures { result ≡ mark_of self }
    {
        match self {
            Edition::Full => FULL,
            Edition::Short => SHORT,
        }
    }
}

// The bits of word 0's payload below the mark.
const BITS_BELOW: u32 = Word::PAYLOAD_BITS - 1;

// What is tested of a file that shall have this mark: 12 (below 4), word 0's 13, 19.
pub fn test(file: &[u8], mark: u32) -> Result<(), Refusal>
    ensures { result ≡ edition_test file.now mark }
{
    if file.len() < 4 {
        return Err(Refusal::FileLength);
    }
    let word = Word::read(file, 0);
    if word.kind() != Kind::Count {
        return Err(Refusal::WrongKind(0));
    }
    if word.payload() >> BITS_BELOW != mark {
        return Err(Refusal::SameEdition);
    }
    Ok(())
}
