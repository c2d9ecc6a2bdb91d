ghost use Rattle.std.specs.Prelude.{[], ◌≡◌, Some};
ghost use Rattle.scope_script.specs.{grown_by, is_blank, said};

use arrayvec::ArrayVec;
use script_words::{LINE_LIMIT, Line, read_line_into};
use std::marker::Model;

/// The line that is begun: its bytes, or nothing but that they are more than a line may have. It
/// takes no memory.
#[derive(Drop)]
pub(crate) struct BegunLine {
    bytes: ArrayVec<u8, LINE_LIMIT>,
    overlong: bool,
}

impl Model for BegunLine {
    ghost use Rattle.std.specs.Prelude.{Some, None, if◌then◌else◌};
    ghost use Rattle.scope_script.specs.KeptLines.{KeptLine};

    ghost Value = { KeptLine };

    ghost view = { λ l. if l.overlong then None else Some l.bytes.items };
}

impl BegunLine {
    /// A line without bytes.
    pub(crate) fn new() -> BegunLine
        ensures { result ≡ Some [] }
    {
        BegunLine {
            bytes: ArrayVec::new(),
            overlong: false,
        }
    }

    /// Whether the line has no byte.
    pub(crate) fn is_empty(&self) -> bool
        ensures { result ≡ is_blank self.now }
    {
        !self.overlong && self.bytes.is_empty()
    }

    /// The line goes on with the bytes.
    pub(crate) fn extend(&mut self, bytes: &[u8])
        ensures { self.new ≡ grown_by self.old bytes.now }
    {
        if self.overlong || bytes.is_empty() {
            return;
        }
        match self.bytes.try_extend_from_slice(bytes) {
            Ok(()) => {}
            Err(_) => self.overlong = true,
        }
    }

    /// Writes what the line says that ends with the bytes; the next begins. A line that comes whole is read
    /// where it stands.
    #[tactic(auto, using(crate::proofs::Growing::said_whole))]
    pub(crate) fn end_with(&mut self, bytes: &[u8], line: &mut Line)
        ensures said { line.new ≡ said (grown_by self.old bytes.now) }
        ensures next { self.new ≡ Some [] }
    {
        if self.is_empty() {
            read_line_into(bytes, line);
            return;
        }
        self.extend(bytes);
        self.end(line);
    }

    /// Writes what the line says, now that it is ended; the next begins.
    fn end(&mut self, line: &mut Line)
        ensures said { line.new ≡ said self.old }
        ensures next { self.new ≡ Some [] }
    {
        if self.overlong {
            *line = Line::BadWord;
        } else {
            read_line_into(&self.bytes, line);
        }
        self.bytes.clear();
        self.overlong = false;
    }
}
