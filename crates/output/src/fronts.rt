// The front of an answer line: its letter and its numbers, before a code or the end of the line.
ghost use Rattle.std.specs.Prelude.{◌≡◌, ◌+◌, ◌≤◌, ◌∷◌, ◌++◌, [], length, codes, decimal};
ghost use Rattle.std.specs.Fmt.{signed_decimal};
ghost use Rattle.arrayvec.specs.ArrayVec.{array_vec_len};
ghost use Rattle.output.specs.Lines.{hexadecimal};

use arrayvec::ArrayVec;
use itoa::{Buffer, Integer};

// Room for a letter and three numbers of at most 20 digits, each after a blank.
pub(crate) type Front = ArrayVec<u8, 64>;

// Puts a text at the end.
fn put(front: &mut Front, text: &[u8])
    requires { array_vec_len front.old + length text.now ≤ 64 }
    ensures { front.new.items ≡ front.old.items ++ text.now }
{
    let _ = front.try_extend_from_slice(text);
}

// Puts a blank and a number in decimal digits, after a hyphen where it is below zero.
fn put_number<I: Integer>(front: &mut Front, n: I)
    requires { array_vec_len front.old + 1 + I.MAX_STR_LEN ≤ 64 }
    ensures text { front.new.items ≡ front.old.items ++ (32 ∷ I.text n) }
    ensures room { array_vec_len front.new ≤ array_vec_len front.old + 1 + I.MAX_STR_LEN }
{
    let mut digits = Buffer::new();
    put(front, b" ");
    put(front, digits.format(n).as_bytes());
}

// `R`, the number and the field of the rule, and the blank before its code.
pub(crate) fn refused(number: u16, field: u8) -> Front
    ensures { result.items ≡ codes "R" ++ (32 ∷ (decimal number ++ (32 ∷ (decimal field ++ codes " ")))) }
{
    let mut front = ArrayVec::new();
    put(&mut front, b"R");
    put_number(&mut front, number);
    put_number(&mut front, field);
    put(&mut front, b" ");
    front
}

// `T`, a contract and its sum.
pub(crate) fn position(contract: usize, sum: i64) -> Front
    ensures { result.items ≡ codes "T" ++ (32 ∷ (decimal contract ++ (32 ∷ signed_decimal sum))) }
{
    let mut front = ArrayVec::new();
    put(&mut front, b"T");
    put_number(&mut front, contract);
    put_number(&mut front, sum);
    front
}

// `Z` and the counts of a file.
pub(crate) fn receipt(judged: u32, accepted: u32, refused: u32) -> Front
    ensures { result.items ≡ codes "Z" ++ (32 ∷ (decimal judged ++ (32 ∷ (decimal accepted ++ (32 ∷ decimal refused))))) }
{
    let mut front = ArrayVec::new();
    put(&mut front, b"Z");
    put_number(&mut front, judged);
    put_number(&mut front, accepted);
    put_number(&mut front, refused);
    front
}

// `W` and a word in sixteen hexadecimal digits, in small letters.
pub(crate) fn check_word(word: u64) -> Front
    ensures { result.items ≡ codes "W" ++ (32 ∷ hexadecimal 16 word) }
{
    let mut digits = [0; 16];
    let _ = hex::encode_to_slice(word.to_be_bytes(), &mut digits);
    let mut front = ArrayVec::new();
    put(&mut front, b"W ");
    put(&mut front, &digits);
    front
}
