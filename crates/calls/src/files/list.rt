// The files in the order of naming; a file's number is its place, from 0.
ghost use Rattle.std.specs.Prelude.{map, vec_items, vec_capacity};
ghost use Rattle.calls.specs.FilesHeld.{Filed, as_file};

use crate::files::held::HeldFile;
use std::marker::Model;

#[derive(Drop)]
pub(crate) struct FileList {
    pub(crate) files: Vec<HeldFile>,
}

// Clauses see the files, and how many have a place reserved.
impl Model for FileList {
    ghost Value = { Filed };

    ghost view = { λ list. record { files = map as_file (vec_items list.files); places = vec_capacity list.files } };
}
