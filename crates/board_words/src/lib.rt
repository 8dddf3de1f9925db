// The board file's words, and its elements as they are written (document 01, "The board file"): 32-bit words, low byte
// first, the top two bits of each its kind; an element is three of them. An index counts the file's words, from word 0.
#![tactic(auto)]

ghost use Rattle.std.specs.Prelude.{◌≡◌, [], ◌∷◌, ◌+◌, ◌*◌, ◌%◌, ◌^◌, ◌≤◌, ◌<◌, length};
ghost use Rattle.std.proofs.lemmas.List.Edits.{sets};
ghost use Rattle.board_words.specs.Words.{joined, number_of, kind_of, payload_of, word_bytes, word_at, bytes_of};
ghost use Rattle.board_words.specs.Elements.{element_words, words_of};
ghost use Rattle.board_words.specs.ElementHelpers.{upper_words};

// The kinds of words, in the order of their numbers: word 0, and an element's three words, its upper bits first.
#[derive(Clone, Copy, PartialEq, Eq)]
pub enum Kind {
    Count,
    High,
    Middle,
    Low,
}

// A word of the file.
#[derive(Clone, Copy)]
pub struct Word(pub u32);

impl Word {
    // The bits below the kind's, and the most that they can be, 2^30 - 1.
    pub const PAYLOAD_BITS: u32 = 30;

    pub const PAYLOAD: u32 = 0x3fff_ffff;

    pub fn join(kind: Kind, payload: u32) -> Word
        requires { payload < 2 ^ 30 }
        ensures { result.0 ≡ joined (number_of kind) payload }
    {
        Word(((kind as u32) << Word::PAYLOAD_BITS) | payload)
    }

    pub fn kind(self) -> Kind
        ensures { number_of result ≡ kind_of self.0 }
    {
        match self.0 >> Word::PAYLOAD_BITS {
            0 => Kind::Count,
            1 => Kind::High,
            2 => Kind::Middle,
            _ => Kind::Low,
        }
    }

    pub fn payload(self) -> u32
        ensures { result ≡ payload_of self.0 }
    {
        self.0 & Word::PAYLOAD
    }

    // Word `index` of the file.
    pub fn read(file: &[u8], index: usize) -> Word
        requires { 4 * index + 4 ≤ length file.now }
        ensures { result.0 ≡ word_at file.now index }
    {
        let at = 4 * index;
        let b0 = file[at] as u32;
        let b1 = file[at + 1] as u32;
        let b2 = file[at + 2] as u32;
        let b3 = file[at + 3] as u32;
        Word(b0 | (b1 << 8) | (b2 << 16) | (b3 << 24))
    }

    // The word becomes word `index` of the destination.
    pub fn write(self, index: usize, destination: &mut [u8])
        requires { 4 * index + 4 ≤ length destination.old }
        ensures { destination.new ≡ sets destination.old (4 * index) (word_bytes self.0) }
    {
        let at = 4 * index;
        let word = self.0;
        destination[at] = (word & 0xff) as u8;
        destination[at + 1] = ((word >> 8) & 0xff) as u8;
        destination[at + 2] = ((word >> 16) & 0xff) as u8;
        destination[at + 3] = (word >> 24) as u8;
    }
}

// A payload's bits in an element.
const PAYLOAD: u64 = Word::PAYLOAD as u64;

// The first two of an element's words, its bits from 30 on, become the words from `index` on.
pub fn write_upper(element: u64, index: usize, destination: &mut [u8])
    requires { 4 * index + 8 ≤ length destination.old }
    ensures { destination.new
        ≡ sets destination.old (4 * index) (bytes_of (upper_words element)) }
{
    let high = (element >> 60) as u32;
    let middle = ((element >> 30) & PAYLOAD) as u32;
    Word::join(Kind::High, high).write(index, destination);
    Word::join(Kind::Middle, middle).write(index + 1, destination);
}

// The last of them becomes word `index`.
pub fn write_low(element: u64, index: usize, destination: &mut [u8])
    requires { 4 * index + 4 ≤ length destination.old }
    ensures { destination.new
        ≡ sets destination.old (4 * index) (bytes_of (joined 3 (element % 2 ^ 30) ∷ [])) }
{
    let low = (element & PAYLOAD) as u32;
    Word::join(Kind::Low, low).write(index, destination);
}

// The element becomes the three words from `index` on.
pub fn write(element: u64, index: usize, destination: &mut [u8])
    requires { 4 * index + 12 ≤ length destination.old }
    ensures { destination.new
        ≡ sets destination.old (4 * index) (bytes_of (element_words element)) }
{
    write_upper(element, index, destination);
    write_low(element, index + 2, destination);
}

// The elements become the words from `index` on.
pub fn write_all(elements: &[u64], index: usize, destination: &mut [u8])
    requires { 4 * index + 12 * length elements.now ≤ length destination.old }
    ensures { destination.new
        ≡ sets destination.old (4 * index) (bytes_of (words_of elements.now)) }
{
    for (i, element) in elements.iter().enumerate() {
        write(*element, index + 3 * i, destination);
    }
}
