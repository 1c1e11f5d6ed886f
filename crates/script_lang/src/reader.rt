// The reader of a line, run by run.
ghost use Rattle.std.specs.Prelude.{◌≡◌, ◌+◌, ◌-◌, ◌<◌, ◌≤◌, ◌^◌, length, IfOk};
ghost use Rattle.script_lang.specs.Bytes.{is_parenthesis};
ghost use Rattle.script_lang.specs.Grammar.{is_end, brackets_behind};
ghost use Rattle.script_lang.specs.Readings.{Gives, GivesRun, IsWithin, TakenAs, until_at};
ghost use Rattle.script_lang.specs.Scans.{after_blanks};
ghost use Rattle.script_lang.specs.Words.{sign_run, number_of, name_of, integer_of, simplex_of, start_of, face_of, part_of, chain_of, space_word_of, command_word_of};
ghost use Rattle.script_lang.specs.Lines.{word_len, run_len, next_at, word_at, closing_at, some_part_at, part_at, pair_at, row_at, term_at, product_at, over_at, bundle_at, sphere_at, space_behind_at, enclosed_at, started_at, space_at, terms_at, chain_behind_at, chain_at, field_at, setf_at, betti_at, homology_at, boundary_at, express_at, command_behind_at, command_at, is_done, end_at, line_at};

use crate::bytes::{is_blank_byte, without_blanks};
use crate::commands::Command;
use crate::exprs::{Expr, PairText, PairTextList};
use crate::faults::Stop;
use crate::simplices::{ChainText, SimplexText, TermText, TermTextList};
use crate::words;
use crate::words::{CommandWord, SpaceWord};
use seqs::Box;
use std::alloc::Global;
use term_lang::{FaceText, FaceTextList, Name, RowText, RowTextList};

/// How deep spaces nest at most.
const MOST_NESTED: u32 = 16;

fn ends_run(brackets: usize, b: u8) -> bool
    ensures { result ≡ is_end brackets b }
{
    (b == b'(' || b == b')' || b == b';') || (is_blank_byte(b) && brackets == 0)
}

fn count_behind(brackets: usize, b: u8) -> usize
    requires { brackets < 2 ^ 64 - 1 }
    ensures { result ≡ brackets_behind brackets b }
{
    match b {
        b'[' => brackets + 1,
        b']' => brackets.saturating_sub(1),
        _ => brackets,
    }
}

/// The length of the run at the front, which is no blank.
#[tactic(auto, unfolding(crate::specs::Lines::run_len))]
fn front_len(bytes: &[u8]) -> usize
    ensures len { result ≡ run_len bytes.now }
    ensures within { result ≤ length bytes.now }
{
    match bytes {
        [] => 0,
        [b'(' | b')', ..] => 1,
        _ => front_word_len(bytes),
    }
}

#[tactic(auto, unfolding(crate::specs::Lines::word_len))]
fn front_word_len(bytes: &[u8]) -> usize
    ensures len { result ≡ word_len 0 bytes.now }
    ensures within { result ≤ length bytes.now }
{
    let mut brackets = 0;
    for (i, b) in bytes.iter().enumerate() {
        if ends_run(brackets, *b) {
            return i;
        }
        brackets = count_behind(brackets, *b);
    }
    bytes.len()
}

/// What is left of a line.
#[derive(Drop)]
pub struct Reader<'a> {
    pub rest: &'a [u8],
}

impl<'a> Reader<'a> {
    /// The next run.
    #[tactic(auto, unfolding(crate::specs::Lines::next_at))]
    fn next(&mut self) -> Result<&'a [u8], Stop>
        ensures gives { GivesRun (λ run. run.now) self.new.rest.now result (next_at self.old.rest.now) }
        ensures fits { IfOk result (λ run. length run.now + length self.new.rest.now < 2 ^ 64) }
    {
        let rest = without_blanks(self.rest);
        let len = front_len(rest);
        if len == 0 {
            return Err(Stop::Fault(rest.len()));
        }
        let (run, rest) = rest.split_at(len);
        self.rest = rest;
        Ok(run)
    }

    /// What a run of this length was taken for, with the fault of the run as one of the line.
    fn taken<T>(&self, len: usize, judged: Result<T, Stop>) -> Result<T, Stop>
        requires fits { len + length self.now.rest.now < 2 ^ 64 }
        requires within { IsWithin len judged }
        ensures { TakenAs self.now.rest.now judged result }
    {
        match judged {
            Ok(x) => Ok(x),
            Err(Stop::Fault(left)) => Err(Stop::Fault(left + self.rest.len())),
            Err(Stop::Memory) => Err(Stop::Memory),
        }
    }

    #[tactic(auto, unfolding(crate::specs::Lines::word_at))]
    fn this(&mut self, text: &[u8]) -> Result<(), Stop>
        ensures { Gives self.new.rest.now result (word_at (sign_run text.now) self.old.rest.now) }
    {
        let run = self.next()?;
        self.taken(run.len(), words::this(run, text))
    }

    #[tactic(auto, using(crate::proofs::Withins::number_within), unfolding(crate::specs::Lines::word_at))]
    fn number(&mut self) -> Result<u64, Stop>
        ensures { Gives self.new.rest.now result (word_at number_of self.old.rest.now) }
    {
        let run = self.next()?;
        self.taken(run.len(), words::number(run))
    }

    #[tactic(auto, using(crate::proofs::Withins::name_within), unfolding(crate::specs::Lines::word_at))]
    fn name(&mut self) -> Result<Name, Stop>
        ensures { Gives self.new.rest.now result (word_at name_of self.old.rest.now) }
    {
        let run = self.next()?;
        self.taken(run.len(), words::name(run))
    }

    #[tactic(auto, using(crate::proofs::Withins::integer_within), unfolding(crate::specs::Lines::word_at))]
    fn integer(&mut self) -> Result<i64, Stop>
        ensures { Gives self.new.rest.now result (word_at integer_of self.old.rest.now) }
    {
        let run = self.next()?;
        self.taken(run.len(), words::integer(run))
    }

    #[tactic(auto, using(crate::proofs::Withins::simplex_within), unfolding(crate::specs::Lines::word_at))]
    fn simplex(&mut self, alloc: Global) -> Result<SimplexText, Stop>
        ensures { Gives self.new.rest.now result (word_at simplex_of self.old.rest.now) }
    {
        let run = self.next()?;
        self.taken(run.len(), words::simplex(alloc, run))
    }

    /// The start of a space: None for an opening parenthesis, or a name.
    #[tactic(auto, using(crate::proofs::Withins::start_within), unfolding(crate::specs::Lines::word_at))]
    fn start(&mut self) -> Result<Option<Name>, Stop>
        ensures { Gives self.new.rest.now result (word_at start_of self.old.rest.now) }
    {
        let run = self.next()?;
        self.taken(run.len(), words::start(run))
    }

    /// A face, or None for a closing parenthesis.
    #[tactic(auto, using(crate::proofs::Withins::face_within), unfolding(crate::specs::Lines::word_at))]
    fn face(&mut self, alloc: Global) -> Result<Option<FaceText>, Stop>
        ensures { Gives self.new.rest.now result (word_at face_of self.old.rest.now) }
    {
        let run = self.next()?;
        self.taken(run.len(), words::face(alloc, run))
    }

    /// Whether a part in parentheses comes, or their end.
    #[tactic(auto, unfolding(crate::specs::Lines::word_at))]
    fn part(&mut self) -> Result<bool, Stop>
        ensures { Gives self.new.rest.now result (word_at part_of self.old.rest.now) }
    {
        let run = self.next()?;
        self.taken(run.len(), words::part(run))
    }

    #[tactic(auto, unfolding(crate::specs::Lines::word_at))]
    fn chain_start(&mut self) -> Result<bool, Stop>
        ensures { Gives self.new.rest.now result (word_at chain_of self.old.rest.now) }
    {
        let run = self.next()?;
        self.taken(run.len(), words::chain(run))
    }

    #[tactic(auto, unfolding(crate::specs::Lines::word_at))]
    fn space_word(&mut self) -> Result<SpaceWord, Stop>
        ensures { Gives self.new.rest.now result (word_at space_word_of self.old.rest.now) }
    {
        let run = self.next()?;
        self.taken(run.len(), words::space_word(run))
    }

    #[tactic(auto, unfolding(crate::specs::Lines::word_at))]
    fn command_word(&mut self) -> Result<CommandWord, Stop>
        ensures { Gives self.new.rest.now result (word_at command_word_of self.old.rest.now) }
    {
        let run = self.next()?;
        self.taken(run.len(), words::command_word(run))
    }

    /// A closing parenthesis.
    fn close(&mut self) -> Result<(), Stop>
        ensures { Gives self.new.rest.now result (closing_at self.old.rest.now) }
    {
        self.this(b")")
    }

    /// A value on a cell, behind its opening parenthesis.
    #[tactic(auto, unfolding(crate::specs::Lines::pair_at))]
    fn pair(&mut self) -> Result<PairText, Stop>
        ensures { Gives self.new.rest.now result (pair_at self.old.rest.now) }
    {
        let cell = self.name()?;
        let value = self.integer()?;
        self.close()?;
        Ok(PairText { cell, value })
    }

    #[tactic(auto, unfolding(crate::specs::Lines::some_part_at))]
    fn some_pair(&mut self, more: bool) -> Result<Option<PairText>, Stop>
        ensures { Gives self.new.rest.now result (some_part_at pair_at more self.old.rest.now) }
    {
        if more {
            Ok(Some(self.pair()?))
        } else {
            Ok(None)
        }
    }

    #[tactic(auto, unfolding(crate::specs::Lines::part_at))]
    fn next_pair(&mut self) -> Result<Option<PairText>, Stop>
        ensures { Gives self.new.rest.now result (part_at pair_at self.old.rest.now) }
    {
        let more = self.part()?;
        self.some_pair(more)
    }

    /// Values on cells, up to a closing parenthesis.
    fn pairs(&mut self, alloc: Global) -> Result<PairTextList, Stop>
        ensures { Gives self.new.rest.now result (until_at (part_at pair_at) self.old.rest.now) }
    {
        let mut pairs = PairTextList::new(alloc);
        while let Some(pair) = self.next_pair()? {
            pairs.push(pair)?;
        }
        Ok(pairs)
    }

    /// Faces, up to a closing parenthesis.
    fn faces(&mut self, alloc: Global) -> Result<FaceTextList, Stop>
        ensures { Gives self.new.rest.now result (until_at (word_at face_of) self.old.rest.now) }
    {
        let mut faces = FaceTextList::new(alloc);
        while let Some(face) = self.face(alloc)? {
            faces.push(face)?;
        }
        Ok(faces)
    }

    /// A row, behind its opening parenthesis.
    #[tactic(auto, unfolding(crate::specs::Lines::row_at))]
    fn row(&mut self, alloc: Global) -> Result<RowText, Stop>
        ensures { Gives self.new.rest.now result (row_at self.old.rest.now) }
    {
        let name = self.name()?;
        let faces = self.faces(alloc)?;
        Ok(RowText { name, faces })
    }

    #[tactic(auto, unfolding(crate::specs::Lines::some_part_at))]
    fn some_row(&mut self, alloc: Global, more: bool) -> Result<Option<RowText>, Stop>
        ensures { Gives self.new.rest.now result (some_part_at row_at more self.old.rest.now) }
    {
        if more {
            Ok(Some(self.row(alloc)?))
        } else {
            Ok(None)
        }
    }

    #[tactic(auto, unfolding(crate::specs::Lines::part_at))]
    fn next_row(&mut self, alloc: Global) -> Result<Option<RowText>, Stop>
        ensures { Gives self.new.rest.now result (part_at row_at self.old.rest.now) }
    {
        let more = self.part()?;
        self.some_row(alloc, more)
    }

    /// Rows, up to a closing parenthesis.
    fn rows(&mut self, alloc: Global) -> Result<RowTextList, Stop>
        ensures { Gives self.new.rest.now result (until_at (part_at row_at) self.old.rest.now) }
    {
        let mut rows = RowTextList::new(alloc);
        while let Some(row) = self.next_row(alloc)? {
            rows.push(row)?;
        }
        Ok(rows)
    }

    /// A term, behind its opening parenthesis.
    #[tactic(auto, unfolding(crate::specs::Lines::term_at))]
    fn term(&mut self, alloc: Global) -> Result<TermText, Stop>
        ensures { Gives self.new.rest.now result (term_at self.old.rest.now) }
    {
        let coeff = self.integer()?;
        let simplex = self.simplex(alloc)?;
        self.close()?;
        Ok(TermText { coeff, simplex })
    }

    #[tactic(auto, unfolding(crate::specs::Lines::some_part_at))]
    fn some_term(&mut self, alloc: Global, more: bool) -> Result<Option<TermText>, Stop>
        ensures { Gives self.new.rest.now result (some_part_at term_at more self.old.rest.now) }
    {
        if more {
            Ok(Some(self.term(alloc)?))
        } else {
            Ok(None)
        }
    }

    #[tactic(auto, unfolding(crate::specs::Lines::part_at))]
    fn next_term(&mut self, alloc: Global) -> Result<Option<TermText>, Stop>
        ensures { Gives self.new.rest.now result (part_at term_at self.old.rest.now) }
    {
        let more = self.part()?;
        self.some_term(alloc, more)
    }

    /// A chain of one term at least, behind the first opening parenthesis, up to a closing one.
    #[tactic(auto, unfolding(crate::specs::Lines::terms_at))]
    fn terms(&mut self, alloc: Global) -> Result<ChainText, Stop>
        ensures { Gives self.new.rest.now result (terms_at self.old.rest.now) }
    {
        let mut terms = TermTextList::new(alloc);
        terms.push(self.term(alloc)?)?;
        while let Some(term) = self.next_term(alloc)? {
            terms.push(term)?;
        }
        Ok(ChainText::Terms(terms))
    }

    #[tactic(auto, unfolding(crate::specs::Lines::chain_behind_at))]
    fn chain_behind(&mut self, alloc: Global, some: bool) -> Result<ChainText, Stop>
        ensures { Gives self.new.rest.now result (chain_behind_at some self.old.rest.now) }
    {
        if some {
            return self.terms(alloc);
        }
        self.close()?;
        Ok(ChainText::Zero)
    }

    /// A chain and the closing parenthesis behind it.
    #[tactic(auto, unfolding(crate::specs::Lines::chain_at))]
    fn chain(&mut self, alloc: Global) -> Result<ChainText, Stop>
        ensures { Gives self.new.rest.now result (chain_at self.old.rest.now) }
    {
        let some = self.chain_start()?;
        self.chain_behind(alloc, some)
    }

    /// A space, with room for so many levels of parentheses.
    #[cycle(nested)]
    #[tactic(auto, using(crate::proofs::Steps::space_at_some), unfolding(crate::specs::Lines::started_at, crate::specs::Lines::space_at))]
    fn space(&mut self, alloc: Global, room: u32) -> Result<Expr, Stop>
        ensures { Gives self.new.rest.now result (space_at room self.old.rest.now) }
    {
        if room == 0 {
            return Ok(Expr::Name(self.name()?));
        }
        if let Some(name) = self.start()? {
            return Ok(Expr::Name(name));
        }
        self.enclosed(alloc, room - 1)
    }

    /// What stands behind an opening parenthesis of a space.
    #[cycle(nested)]
    #[tactic(auto, unfolding(crate::specs::Lines::enclosed_at))]
    fn enclosed(&mut self, alloc: Global, room: u32) -> Result<Expr, Stop>
        ensures { Gives self.new.rest.now result (enclosed_at (space_at room) self.old.rest.now) }
    {
        let word = self.space_word()?;
        self.space_behind(alloc, room, word)
    }

    #[cycle(nested)]
    #[tactic(auto, unfolding(crate::specs::Lines::product_at))]
    fn product(&mut self, alloc: Global, room: u32) -> Result<Expr, Stop>
        ensures { Gives self.new.rest.now result (product_at (space_at room) self.old.rest.now) }
    {
        let left = self.space(alloc, room)?;
        let right = self.space(alloc, room)?;
        self.close()?;
        Ok(Expr::Product(Box::new(alloc, left)?, Box::new(alloc, right)?))
    }

    #[cycle(nested)]
    #[tactic(auto, unfolding(crate::specs::Lines::over_at))]
    fn suspension(&mut self, alloc: Global, room: u32) -> Result<Expr, Stop>
        ensures { Gives self.new.rest.now result (over_at (space_at room) (λ a. Expr.Suspension a) self.old.rest.now) }
    {
        let part = self.space(alloc, room)?;
        self.close()?;
        Ok(Expr::Suspension(Box::new(alloc, part)?))
    }

    #[cycle(nested)]
    #[tactic(auto, unfolding(crate::specs::Lines::over_at))]
    fn loops(&mut self, alloc: Global, room: u32) -> Result<Expr, Stop>
        ensures { Gives self.new.rest.now result (over_at (space_at room) (λ a. Expr.Loop a) self.old.rest.now) }
    {
        let part = self.space(alloc, room)?;
        self.close()?;
        Ok(Expr::Loop(Box::new(alloc, part)?))
    }

    #[cycle(nested)]
    #[tactic(auto, unfolding(crate::specs::Lines::over_at))]
    fn paths(&mut self, alloc: Global, room: u32) -> Result<Expr, Stop>
        ensures { Gives self.new.rest.now result (over_at (space_at room) (λ a. Expr.Path a) self.old.rest.now) }
    {
        let part = self.space(alloc, room)?;
        self.close()?;
        Ok(Expr::Path(Box::new(alloc, part)?))
    }

    #[cycle(nested)]
    #[tactic(auto, unfolding(crate::specs::Lines::bundle_at))]
    fn bundle(&mut self, alloc: Global, room: u32) -> Result<Expr, Stop>
        ensures { Gives self.new.rest.now result (bundle_at (space_at room) self.old.rest.now) }
    {
        let base = self.space(alloc, room)?;
        let values = self.pairs(alloc)?;
        Ok(Expr::Bundle(Box::new(alloc, base)?, values))
    }

    #[tactic(auto, unfolding(crate::specs::Lines::sphere_at))]
    fn sphere(&mut self) -> Result<Expr, Stop>
        ensures { Gives self.new.rest.now result (sphere_at self.old.rest.now) }
    {
        let n = self.number()?;
        self.close()?;
        Ok(Expr::Sphere(n))
    }

    /// What stands behind the word of a space.
    #[cycle(nested)]
    #[tactic(auto, unfolding(crate::specs::Lines::space_behind_at))]
    fn space_behind(&mut self, alloc: Global, room: u32, word: SpaceWord) -> Result<Expr, Stop>
        ensures { Gives self.new.rest.now result (space_behind_at (space_at room) word self.old.rest.now) }
    {
        match word {
            SpaceWord::Sphere => self.sphere(),
            SpaceWord::Product => self.product(alloc, room),
            SpaceWord::Suspension => self.suspension(alloc, room),
            SpaceWord::KZ1 => {
                self.close()?;
                Ok(Expr::KZ1)
            }
            SpaceWord::Loop => self.loops(alloc, room),
            SpaceWord::Path => self.paths(alloc, room),
            SpaceWord::Bundle => self.bundle(alloc, room),
            SpaceWord::Table => Ok(Expr::Table(self.rows(alloc)?)),
        }
    }

    #[tactic(auto, unfolding(crate::specs::Lines::setf_at))]
    fn setf(&mut self, alloc: Global) -> Result<Command, Stop>
        ensures { Gives self.new.rest.now result (setf_at self.old.rest.now) }
    {
        let name = self.name()?;
        let space = self.space(alloc, MOST_NESTED)?;
        self.close()?;
        Ok(Command::Setf(name, space))
    }

    #[tactic(auto, unfolding(crate::specs::Lines::betti_at))]
    fn betti(&mut self, alloc: Global) -> Result<Command, Stop>
        ensures { Gives self.new.rest.now result (betti_at self.old.rest.now) }
    {
        let space = self.space(alloc, MOST_NESTED)?;
        let low = self.number()?;
        let high = self.number()?;
        self.close()?;
        Ok(Command::Betti(space, low, high))
    }

    #[tactic(auto, unfolding(crate::specs::Lines::homology_at))]
    fn homology(&mut self, alloc: Global) -> Result<Command, Stop>
        ensures { Gives self.new.rest.now result (homology_at self.old.rest.now) }
    {
        let space = self.space(alloc, MOST_NESTED)?;
        let n = self.number()?;
        self.close()?;
        Ok(Command::Homology(space, n))
    }

    #[tactic(auto, unfolding(crate::specs::Lines::boundary_at))]
    fn boundary(&mut self, alloc: Global) -> Result<Command, Stop>
        ensures { Gives self.new.rest.now result (boundary_at self.old.rest.now) }
    {
        let space = self.space(alloc, MOST_NESTED)?;
        let n = self.number()?;
        let chain = self.chain(alloc)?;
        Ok(Command::Boundary(space, n, chain))
    }

    #[tactic(auto, unfolding(crate::specs::Lines::express_at))]
    fn express(&mut self, alloc: Global) -> Result<Command, Stop>
        ensures { Gives self.new.rest.now result (express_at self.old.rest.now) }
    {
        let space = self.space(alloc, MOST_NESTED)?;
        let n = self.number()?;
        let chain = self.chain(alloc)?;
        Ok(Command::Express(space, n, chain))
    }

    /// What stands behind the word of a command.
    #[tactic(auto, unfolding(crate::specs::Lines::command_behind_at))]
    fn command_behind(&mut self, alloc: Global, word: CommandWord) -> Result<Command, Stop>
        ensures { Gives self.new.rest.now result (command_behind_at word self.old.rest.now) }
    {
        match word {
            CommandWord::Field => self.field(),
            CommandWord::Setf => self.setf(alloc),
            CommandWord::Names => {
                self.close()?;
                Ok(Command::Names)
            }
            CommandWord::Betti => self.betti(alloc),
            CommandWord::Homology => self.homology(alloc),
            CommandWord::Boundary => self.boundary(alloc),
            CommandWord::Express => self.express(alloc),
        }
    }

    #[tactic(auto, unfolding(crate::specs::Lines::field_at))]
    fn field(&mut self) -> Result<Command, Stop>
        ensures { Gives self.new.rest.now result (field_at self.old.rest.now) }
    {
        let n = self.number()?;
        self.close()?;
        Ok(Command::Field(n))
    }

    /// Whether nothing stands before the end or a semicolon.
    fn is_done(&self) -> bool
        ensures { result ≡ is_done self.now.rest.now }
    {
        front_len(without_blanks(self.rest)) == 0
    }

    #[tactic(auto, unfolding(crate::specs::Lines::end_at))]
    fn end(&mut self) -> Result<(), Stop>
        ensures { Gives self.new.rest.now result (end_at self.old.rest.now) }
    {
        if self.is_done() {
            Ok(())
        } else {
            Err(Stop::Fault(without_blanks(self.rest).len()))
        }
    }

    #[tactic(auto, unfolding(crate::specs::Lines::command_at))]
    fn command(&mut self, alloc: Global) -> Result<Command, Stop>
        ensures { Gives self.new.rest.now result (command_at self.old.rest.now) }
    {
        self.this(b"(")?;
        let word = self.command_word()?;
        self.command_behind(alloc, word)
    }

    /// The command of a line, or None where it has none.
    #[tactic(auto, unfolding(crate::specs::Lines::line_at))]
    pub fn line(&mut self, alloc: Global) -> Result<Option<Command>, Stop>
        ensures { Gives self.new.rest.now result (line_at self.old.rest.now) }
    {
        if self.is_done() {
            return Ok(None);
        }
        let command = self.command(alloc)?;
        self.end()?;
        Ok(Some(command))
    }
}
