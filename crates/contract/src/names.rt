// Index names.
ghost use Rattle.std.specs.Prelude.{◌≡◌, true, length};
ghost use Rattle.text.specs.Bytes.{every, among};
ghost use Rattle.text.specs.Forms.{few_names};
ghost use Rattle.text.specs.Listings.{listing};
ghost use Rattle.text.specs.Texts.{texts_of};
ghost use Rattle.contract.specs.ContractList.{repeats};
ghost use Rattle.contract.specs.Held.{names_of};

use crate::held::NameList;
use arrayvec::ArrayVec;
use text::{Names, Text, is_among};

impl NameList {
    // The names of a part of a text.
    pub(crate) fn of(names: Names) -> NameList
        requires { few_names 8 (listing names) ≡ true }
        ensures { names_of result ≡ listing names.entry }
    {
        let mut texts = ArrayVec::new();
        for name in names {
            texts.push(Text::new(name).unwrap());
        }
        NameList { texts }
    }

    pub(crate) fn as_slice(&self) -> &[Text<32>]
        ensures { result.now ≡ self.now.texts.items }
    {
        self.texts.as_slice()
    }
}

// Whether a text stands twice in a list.
pub(crate) fn has_twice(texts: &[Text<32>]) -> bool
    ensures { result ≡ repeats (texts_of texts.now) }
{
    let mut rest = texts;
    while let Some((text, others)) = rest.split_first() {
        if is_among(others, text.as_slice()) {
            return true;
        }
        rest = others;
    }
    false
}

// Whether every name stands in a list.
pub(crate) fn has_all(texts: &[Text<32>], mut names: Names) -> bool
    ensures { result ≡ every (among (texts_of texts.now)) (listing names.entry) }
{
    names.all(|name| is_among(texts, name))
}
