//! Lines of a source, as they stand and after expansion.

use crate::files::FileName;
use crate::shared_texts::SharedText;

/// A line of a source, without its end. Its number counts from 1 in the file that `source` names.
#[derive(Drop)]
pub struct Line {
    pub source: FileName,
    pub number: u32,
    pub text: SharedText,
}

/// A line that expansion leaves: the text after substitution, and the file and line where it stands.
#[derive(Drop)]
pub struct Flat {
    pub source: FileName,
    pub number: u32,
    pub text: SharedText,
}
