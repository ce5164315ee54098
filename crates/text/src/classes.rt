// Classes of bytes, and texts that are made of one class.
ghost use Rattle.std.specs.Prelude.{◌≡◌, ℕ, Bool};
ghost use Rattle.std.specs.Char.{is_ascii_alphanumeric, is_ascii_digit, is_ascii_uppercase};
ghost use Rattle.text.specs.Bytes.{every, id_byte, capital_or_digit};

// A class of bytes. A trait, since each class states its definition once, where a closure would have every caller prove it.
pub trait ByteClass {
    ghost member: { ℕ → Bool };

    fn has(b: u8) -> bool
        ensures { result ≡ member b };
}

// Hexadecimal 21 to 7E, without the separators `;` and `,`.
pub struct IdBytes;

impl ByteClass for IdBytes {
    ghost member = { id_byte };

    fn has(b: u8) -> bool {
        b.is_ascii_graphic() && !matches!(b, b';' | b',')
    }
}

// The capital letters A to Z.
pub struct Capitals;

impl ByteClass for Capitals {
    ghost member = { is_ascii_uppercase };

    fn has(b: u8) -> bool {
        b.is_ascii_uppercase()
    }
}

// The digits 0 to 9.
pub struct Digits;

impl ByteClass for Digits {
    ghost member = { is_ascii_digit };

    fn has(b: u8) -> bool {
        b.is_ascii_digit()
    }
}

// Capital letters and digits.
pub struct CapitalsOrDigits;

impl ByteClass for CapitalsOrDigits {
    ghost member = { capital_or_digit };

    fn has(b: u8) -> bool {
        Capitals::has(b) || Digits::has(b)
    }
}

// Letters of either case, and digits.
pub struct LettersOrDigits;

impl ByteClass for LettersOrDigits {
    ghost member = { is_ascii_alphanumeric };

    fn has(b: u8) -> bool {
        b.is_ascii_alphanumeric()
    }
}

// Whether every byte is of the class. By a fold with `&`, not `all`: the texts are short and are tested for every line, and with a branch for each
// byte a million lines take 0.25 s for 0.22 (docs/FIGURES.md).
pub fn all_of<C: ByteClass>(text: &[u8]) -> bool
    ensures { result ≡ every C.ByteClass.member text.now }
{
    text.iter().fold(true, |good, b| good & C::has(*b))
}
