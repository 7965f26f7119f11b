//! A reader of lines.
ghost use Rattle.std.specs.Prelude.{◌≡◌, ◌≤◌, ◌<◌, ◌++◌, ◌∷◌, [], ℕ, List, Option, Some, IfOk, length, vec_len};
ghost use Rattle.line_reader.specs.Lines.{GoesOn, HasLine, HasNoEnd, HasRoom, IsEnd, Stands, Stepped, pending};

use crate::steps::{hold, line_end, room};
use mos_fields::NoMemory;
use mos_io::Source;
use std::alloc::Global;

/// Why a reader goes no further.
#[derive(Clone, Copy, Debug, Drop, PartialEq, Eq)]
pub enum LineFault {
    /// A read failed.
    ReadFault,
    /// Memory ran out.
    NoMemory,
}

/// What one step of a reader comes to.
#[derive(Clone, Copy, Debug, Drop, PartialEq, Eq)]
pub enum Step {
    /// The line isn't ended yet.
    More,
    /// The line is ended by a line feed.
    Line,
    /// The input is ended, and the line with it.
    Ended,
}

/// Reads the lines of a source, one after another. It holds one piece of the input, and of the line that it is at no more
/// than so many bytes.
#[derive(Drop)]
pub struct LineReader {
    /// room for a piece
    pub piece: Vec<u8>,
    /// so many bytes of the piece were looked at
    pub at: usize,
    /// so many bytes of the room are the piece
    pub end: usize,
    /// what is held of the line
    pub line: Vec<u8>,
    /// the most bytes that are held of a line
    pub most: usize,
}

impl LineReader {
    /// A reader at the first line, which holds at most so many bytes of a line. The only error is that memory runs out.
    pub fn new(alloc: Global, most: usize) -> Result<Self, NoMemory>
        ensures begun { IfOk result (λ r. (l : Option (List ℕ)) → Stands l l r []) }
        ensures most { IfOk result (λ r. r.most ≡ most) }
        ensures room { IfOk result HasRoom }
    {
        let piece = room(alloc)?;
        Ok(LineReader {
            piece,
            at: 0,
            end: 0,
            line: Vec::new(alloc),
            most,
        })
    }

    // Where bytes of the piece are left and no line feed is among them: all of them are of the line.
    fn take_rest(&mut self) -> Result<Step, LineFault>
        requires room { HasRoom self.old }
        requires left { self.old.at < self.old.end }
        requires no_end { HasNoEnd (pending self.old) }
        ensures stepped { (l : Option (List ℕ)) (l' : Option (List ℕ)) (f : ℕ) (lines : List (List ℕ)) → Stands l l' self.old lines → Stepped l l' f f self.new lines result }
        ensures goes_on { IfOk result (λ step. GoesOn step (pending self.old) (pending self.new)) }
        ensures most { self.new.most ≡ self.old.most }
        ensures room { HasRoom self.new }
    {
        match hold(&mut self.line, &self.piece[self.at..self.end], self.most) {
            Err(_) => Err(LineFault::NoMemory),
            Ok(()) => {
                self.at = self.end;
                Ok(Step::More)
            }
        }
    }

    // Where a line feed stands behind so many bytes: they are of the line, which it ends.
    fn take_front(&mut self, count: usize) -> Result<Step, LineFault>
        requires room { HasRoom self.old }
        requires left { self.old.at < self.old.end }
        requires end { IsEnd (pending self.old) (Some count) }
        ensures stepped { (l : Option (List ℕ)) (l' : Option (List ℕ)) (f : ℕ) (lines : List (List ℕ)) → Stands l l' self.old lines → Stepped l l' f f self.new lines result }
        ensures goes_on { IfOk result (λ step. GoesOn step (pending self.old) (pending self.new)) }
        ensures most { self.new.most ≡ self.old.most }
        ensures room { HasRoom self.new }
    {
        let front = &self.piece[self.at..self.end];
        match hold(&mut self.line, &front[..count], self.most) {
            Err(_) => Err(LineFault::NoMemory),
            Ok(()) => {
                self.at += count + 1;
                Ok(Step::Line)
            }
        }
    }

    // Where bytes of the piece are left.
    fn cut(&mut self) -> Result<Step, LineFault>
        requires room { HasRoom self.old }
        requires left { self.old.at < self.old.end }
        ensures stepped { (l : Option (List ℕ)) (l' : Option (List ℕ)) (f : ℕ) (lines : List (List ℕ)) → Stands l l' self.old lines → Stepped l l' f f self.new lines result }
        ensures goes_on { IfOk result (λ step. GoesOn step (pending self.old) (pending self.new)) }
        ensures most { self.new.most ≡ self.old.most }
        ensures room { HasRoom self.new }
    {
        match line_end(&self.piece[self.at..self.end]) {
            None => self.take_rest(),
            Some(count) => self.take_front(count),
        }
    }

    // Where nothing of the piece is left: reads the next one.
    fn read<S: Source>(&mut self, source: &mut S) -> Result<Step, LineFault>
        requires room { HasRoom self.old }
        requires spent { pending self.old ≡ [] }
        ensures stepped { (l : Option (List ℕ)) (lines : List (List ℕ)) → Stands l (S.left source.old) self.old lines → Stepped l (S.left source.new) (S.faults source.old) (S.faults source.new) self.new lines result }
        ensures goes_on { IfOk result (λ step. GoesOn step (pending self.old) (pending self.new)) }
        ensures most { self.new.most ≡ self.old.most }
        ensures room { HasRoom self.new }
        ensures rises { S.faults source.old ≤ S.faults source.new }
    {
        match source.read(&mut self.piece) {
            Err(_) => Err(LineFault::ReadFault),
            Ok(0) => Ok(Step::Ended),
            Ok(count) => {
                self.at = 0;
                self.end = count;
                Ok(Step::More)
            }
        }
    }

    /// Goes on by one step: to the end of the line within the piece, or by one read. It is called where the line isn't ended.
    /// Behind `Line` and `Ended` the line is whole, and `line` is what is held of it. Behind `More` and `Line` bytes were gone
    /// over.
    ///
    /// # Errors
    /// `ReadFault` only where the source's count of faults rose; nothing was taken then. `NoMemory` where memory runs out.
    pub fn advance<S: Source>(&mut self, source: &mut S) -> Result<Step, LineFault>
        requires { HasRoom self.old }
        ensures stepped { (l : Option (List ℕ)) (lines : List (List ℕ)) → Stands l (S.left source.old) self.old lines → Stepped l (S.left source.new) (S.faults source.old) (S.faults source.new) self.new lines result }
        ensures goes_on { IfOk result (λ step. GoesOn step (pending self.old) (pending self.new)) }
        ensures most { self.new.most ≡ self.old.most }
        ensures room { HasRoom self.new }
        ensures rises { S.faults source.old ≤ S.faults source.new }
    {
        if self.at < self.end {
            self.cut()
        } else {
            self.read(source)
        }
    }

    /// What is held of the line.
    pub fn line(&self) -> &[u8]
        ensures { result.now ≡ self.now.line.items }
    {
        self.line.as_slice()
    }

    /// Begins the next line, behind one that is ended by a line feed.
    pub fn clear(&mut self)
        requires { HasRoom self.old }
        ensures begun { (l : Option (List ℕ)) (l' : Option (List ℕ)) (lines : List (List ℕ)) (h : HasLine l l' self.old lines) → Stands l l' self.new (lines ++ h.current ∷ []) }
        ensures kept { pending self.new ≡ pending self.old }
        ensures most { self.new.most ≡ self.old.most }
        ensures room { HasRoom self.new }
    {
        self.line.clear();
    }
}
