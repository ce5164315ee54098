// The token of a file: its type says where the file stands. It is moved and never let go.
ghost use Rattle.std.specs.Prelude.{◌≡◌};

use std::marker::PhantomData;

/// The stage of a file that is only named.
pub struct OnlyNamed;

/// The stage of a file that is identified.
pub struct AlreadyIdentified;

// Ties a token to its checker.
pub(crate) type Brand<'id> = PhantomData<&'id mut &'id ()>;

/// What one checker is made with. Each mark has a lifetime of its own, which the checker and the
/// tokens of its files have too: so a token given to another checker does not build.
#[derive(Drop)]
pub struct Mark<'id> {
    brand: Brand<'id>,
}

/// Gives a new mark to `work`, and answers what that answers. The checker that `work` makes with
/// it, and the tokens of that checker's files, stay inside.
pub fn with_mark<R, F: for<'id> FnOnce(Mark<'id>) -> R>(work: F) -> R
    requires { (mark : _) → F.pre work mark }
    ensures { (mark : _) × F.post work mark result }
{
    work(Mark::new())
}

impl<'id> Mark<'id> {
    pub(crate) fn new() -> Mark<'id> {
        Mark { brand: PhantomData }
    }

    pub(crate) fn brand(self) -> Brand<'id> {
        self.brand
    }
}

/// The token of a file, whose type says where the file stands: one named (`NamedFile`), or
/// identified (`IdentifiedFile`). It is spent by ending its file, and by nothing else.
pub struct FileToken<'id, S> {
    number: usize,
    stands: PhantomData<S>,
    brand: Brand<'id>,
}

pub type NamedFile<'id> = FileToken<'id, OnlyNamed>;

pub type IdentifiedFile<'id> = FileToken<'id, AlreadyIdentified>;

impl<'id, S> FileToken<'id, S> {
    pub(crate) fn new(number: usize) -> FileToken<'id, S>
        ensures { result.number ≡ number }
    {
        FileToken {
            number,
            stands: PhantomData,
            brand: PhantomData,
        }
    }

    /// The number of its file, in the order of naming, from 0.
    pub fn number(&self) -> usize
        ensures { result ≡ self.now.number }
    {
        self.number
    }

    // The number alone: the token is given up.
    pub(crate) fn into_number(self) -> usize
        ensures { result ≡ self.entry.number }
    {
        let FileToken {
            number,
            stands: _,
            brand: _,
        } = self;
        number
    }
}

impl<'id> FileToken<'id, OnlyNamed> {
    // The token of the same file, once it is identified.
    pub(crate) fn into_identified(self) -> IdentifiedFile<'id>
        ensures { result.number ≡ self.entry.number }
    {
        FileToken::new(self.into_number())
    }
}
