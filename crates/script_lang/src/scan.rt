// The reader within a run: numbers, names, integers, faces and simplices.
ghost use Rattle.std.specs.Prelude.{◌≡◌, ◌<◌, ◌≤◌, ◌^◌, ◌==◌, ◌||◌, length, IfOk, Option};
ghost use Rattle.script_lang.specs.Bytes.{is_digit};
ghost use Rattle.script_lang.specs.Readings.{Gives, ends_at, until_at};
ghost use Rattle.script_lang.specs.Scans.{begins, name_in, number_in, sign_in, may_in, negative_in, signed_in, integer_in, separator_in, next_degen_in, degen_in, degens_in, prefix_in, face_in, barred_in, int_in, gap_in, signed_letter_in, letter_in, behind_gap_in, more_letters_in, some_letters_in, word_in, pair_in, behind_in, sign_of, sign_or_name_in, head_in, body_in, simplex_over, simplex_in};

use crate::bytes::{
    front_name_len, front_number_len, is_blank_byte, is_digit_byte, value, without_blanks,
};
use crate::faults::Stop;
use crate::simplices::{BodyText, LetterText, SimplexText};
use seqs::{Box, Seq, new_seq};
use std::alloc::Global;
use term_lang::{FaceText, IntList, Name, name_of};

/// The sign that a body begins with, or the name that it is.
#[derive(Clone, Copy, Debug)]
pub enum BodySign {
    Star,
    Name(Name),
    Up,
    Pair,
    Ints,
    Word,
}

/// What is left of a run.
#[derive(Drop)]
pub struct Scan<'a> {
    pub rest: &'a [u8],
}

#[tactic(auto, unfolding(crate::specs::Scans::sign_of))]
fn sign(room: u32, byte: u8) -> Option<BodySign>
    ensures { result ≡ sign_of room byte }
{
    match byte {
        b'*' => Some(BodySign::Star),
        b'|' => Some(BodySign::Ints),
        _ if room == 0 => None,
        b'^' => Some(BodySign::Up),
        b'<' => Some(BodySign::Pair),
        b'[' => Some(BodySign::Word),
        _ => None,
    }
}

impl<'a> Scan<'a> {
    /// A number.
    #[tactic(auto, using(crate::proofs::Fronts::number_front), unfolding(crate::specs::Scans::number_in))]
    pub fn number(&mut self) -> Result<u64, Stop>
        ensures gives { Gives self.new.rest.now result (number_in self.old.rest.now) }
        ensures small { IfOk result (λ n. n < 10 ^ 18) }
    {
        let len = front_number_len(self.rest);
        if len == 0 {
            return Err(Stop::Fault(self.rest.len()));
        }
        let (digits, rest) = self.rest.split_at(len);
        self.rest = rest;
        Ok(value(digits))
    }

    /// A name.
    #[tactic(auto, using(crate::proofs::Fronts::name_short), unfolding(crate::specs::Scans::name_in))]
    pub fn name(&mut self) -> Result<Name, Stop>
        ensures { Gives self.new.rest.now result (name_in self.old.rest.now) }
    {
        let len = front_name_len(self.rest);
        if len == 0 {
            return Err(Stop::Fault(self.rest.len()));
        }
        let (name, rest) = self.rest.split_at(len);
        self.rest = rest;
        Ok(name_of(name).unwrap())
    }

    /// This sign.
    #[tactic(auto, unfolding(crate::specs::Scans::sign_in))]
    fn sign(&mut self, byte: u8) -> Result<(), Stop>
        ensures { Gives self.new.rest.now result (sign_in byte self.old.rest.now) }
    {
        match self.rest {
            [first, more @ ..] if *first == byte => {
                self.rest = more;
                Ok(())
            }
            _ => Err(Stop::Fault(self.rest.len())),
        }
    }

    /// The end of the run.
    pub fn end(&self) -> Result<(), Stop>
        ensures { result ≡ ends_at self.now.rest.now }
    {
        if self.rest.is_empty() {
            Ok(())
        } else {
            Err(Stop::Fault(self.rest.len()))
        }
    }

    /// Whether this sign comes; it is then read.
    #[tactic(auto, unfolding(crate::specs::Scans::may_in))]
    fn may(&mut self, byte: u8) -> Result<bool, Stop>
        ensures { Gives self.new.rest.now result (may_in byte self.old.rest.now) }
    {
        match self.rest {
            [first, more @ ..] if *first == byte => {
                self.rest = more;
                Ok(true)
            }
            _ => Ok(false),
        }
    }

    fn begins_digit(&self) -> bool
        ensures { result ≡ begins is_digit self.now.rest.now }
    {
        match self.rest {
            [] => false,
            [first, ..] => is_digit_byte(*first),
        }
    }

    fn begins_integer(&self) -> bool
        ensures { result ≡ begins (λ b. is_digit b || (b == 45)) self.now.rest.now }
    {
        match self.rest {
            [] => false,
            [first, ..] => is_digit_byte(*first) || *first == b'-',
        }
    }

    fn begins_zero(&self) -> bool
        ensures { result ≡ begins (λ b. b == 48) self.now.rest.now }
    {
        match self.rest {
            [] => false,
            [first, ..] => *first == b'0',
        }
    }

    /// A number that is not 0, with the minus sign that was read before it.
    #[tactic(auto, unfolding(crate::specs::Scans::negative_in))]
    fn negative(&mut self) -> Result<i64, Stop>
        ensures { Gives self.new.rest.now result (negative_in self.old.rest.now) }
    {
        if self.begins_zero() {
            return Err(Stop::Fault(self.rest.len()));
        }
        let n = self.number()?;
        Ok(-(n as i64))
    }

    #[tactic(auto, unfolding(crate::specs::Scans::signed_in))]
    fn signed(&mut self, minus: bool) -> Result<i64, Stop>
        ensures { Gives self.new.rest.now result (signed_in minus self.old.rest.now) }
    {
        if minus {
            return self.negative();
        }
        let n = self.number()?;
        Ok(n as i64)
    }

    /// An integer.
    #[tactic(auto, unfolding(crate::specs::Scans::integer_in))]
    pub fn integer(&mut self) -> Result<i64, Stop>
        ensures { Gives self.new.rest.now result (integer_in self.old.rest.now) }
    {
        let minus = self.may(b'-')?;
        self.signed(minus)
    }

    /// Whether another degeneracy comes.
    #[tactic(auto, unfolding(crate::specs::Scans::separator_in))]
    fn separator(&mut self) -> Result<bool, Stop>
        ensures { Gives self.new.rest.now result (separator_in self.old.rest.now) }
    {
        match self.rest {
            [b'-', more @ ..] => {
                self.rest = more;
                Ok(true)
            }
            [b':', more @ ..] => {
                self.rest = more;
                Ok(false)
            }
            _ => Err(Stop::Fault(self.rest.len())),
        }
    }

    #[tactic(auto, unfolding(crate::specs::Scans::next_degen_in))]
    fn next_degen(&mut self, more: bool) -> Result<Option<u64>, Stop>
        ensures { Gives self.new.rest.now result (next_degen_in more self.old.rest.now) }
    {
        if more {
            Ok(Some(self.number()?))
        } else {
            Ok(None)
        }
    }

    /// The next degeneracy, or None for the end of the prefix.
    #[tactic(auto, unfolding(crate::specs::Scans::degen_in))]
    fn degen(&mut self) -> Result<Option<u64>, Stop>
        ensures { Gives self.new.rest.now result (degen_in self.old.rest.now) }
    {
        let more = self.separator()?;
        self.next_degen(more)
    }

    /// Degeneracies and the colon behind them.
    #[tactic(auto, unfolding(crate::specs::Scans::degens_in))]
    fn degens(&mut self, alloc: Global) -> Result<Seq<u64>, Stop>
        ensures { Gives self.new.rest.now result (degens_in self.old.rest.now) }
    {
        let mut degens = new_seq(alloc);
        degens.push(self.number()?)?;
        while let Some(degen) = self.degen()? {
            degens.push(degen)?;
        }
        Ok(degens)
    }

    /// Degeneracies and a colon, or nothing.
    #[tactic(auto, unfolding(crate::specs::Scans::prefix_in))]
    fn prefix(&mut self, alloc: Global) -> Result<Seq<u64>, Stop>
        ensures { Gives self.new.rest.now result (prefix_in self.old.rest.now) }
    {
        if self.begins_digit() {
            self.degens(alloc)
        } else {
            Ok(new_seq(alloc))
        }
    }

    /// A face.
    #[tactic(auto, unfolding(crate::specs::Scans::face_in))]
    pub fn face(&mut self, alloc: Global) -> Result<FaceText, Stop>
        ensures { Gives self.new.rest.now result (face_in self.old.rest.now) }
    {
        let word = self.prefix(alloc)?;
        let name = self.name()?;
        Ok(FaceText { word, name })
    }

    /// An integer and the bar behind it.
    #[tactic(auto, unfolding(crate::specs::Scans::barred_in))]
    fn barred(&mut self) -> Result<Option<i64>, Stop>
        ensures { Gives self.new.rest.now result (barred_in self.old.rest.now) }
    {
        let n = self.integer()?;
        self.sign(b'|')?;
        Ok(Some(n))
    }

    /// The next integer between bars, or None where none comes.
    #[tactic(auto, unfolding(crate::specs::Scans::int_in))]
    fn int(&mut self) -> Result<Option<i64>, Stop>
        ensures { Gives self.new.rest.now result (int_in self.old.rest.now) }
    {
        if self.begins_integer() {
            self.barred()
        } else {
            Ok(None)
        }
    }

    /// Integers between bars, behind the first bar.
    fn ints(&mut self, alloc: Global) -> Result<IntList, Stop>
        ensures { Gives self.new.rest.now result (until_at int_in self.old.rest.now) }
    {
        let mut ints = new_seq(alloc);
        while let Some(n) = self.int()? {
            ints.push(n)?;
        }
        Ok(ints)
    }

    /// One blank at least.
    #[tactic(auto, unfolding(crate::specs::Scans::gap_in))]
    fn gap(&mut self) -> Result<(), Stop>
        ensures { Gives self.new.rest.now result (gap_in self.old.rest.now) }
    {
        match self.rest {
            [first, more @ ..] if is_blank_byte(*first) => {
                self.rest = without_blanks(more);
                Ok(())
            }
            _ => Err(Stop::Fault(self.rest.len())),
        }
    }

    /// The sign of a body, where so many signs may still enclose what is behind it.
    #[tactic(auto, unfolding(crate::specs::Scans::head_in, crate::specs::Scans::sign_or_name_in))]
    fn head(&mut self, room: u32) -> Result<BodySign, Stop>
        ensures { Gives self.new.rest.now result (head_in room self.old.rest.now) }
    {
        let [first, more @ ..] = self.rest else {
            return Err(Stop::Fault(0));
        };
        if let Some(sign) = sign(room, *first) {
            self.rest = more;
            return Ok(sign);
        }
        Ok(BodySign::Name(self.name()?))
    }

    #[cycle(simplices)]
    #[tactic(auto, unfolding(crate::specs::Scans::signed_letter_in))]
    fn signed_letter(&mut self, alloc: Global, room: u32, inverse: bool) -> Result<LetterText, Stop>
        ensures { Gives self.new.rest.now result (signed_letter_in (simplex_in room) inverse self.old.rest.now) }
    {
        let simplex = self.simplex(alloc, room)?;
        Ok(LetterText { inverse, simplex })
    }

    /// A letter.
    #[cycle(simplices)]
    #[tactic(auto, unfolding(crate::specs::Scans::letter_in))]
    fn letter(&mut self, alloc: Global, room: u32) -> Result<LetterText, Stop>
        ensures { Gives self.new.rest.now result (letter_in (simplex_in room) self.old.rest.now) }
    {
        let minus = self.may(b'-')?;
        self.signed_letter(alloc, room, minus)
    }

    #[cycle(simplices)]
    #[tactic(auto, unfolding(crate::specs::Scans::behind_gap_in))]
    fn behind_gap(&mut self, alloc: Global, room: u32) -> Result<Option<LetterText>, Stop>
        ensures { Gives self.new.rest.now result (behind_gap_in (simplex_in room) self.old.rest.now) }
    {
        self.gap()?;
        Ok(Some(self.letter(alloc, room)?))
    }

    /// The next letter, or None for the end of the word.
    #[cycle(simplices)]
    #[tactic(auto, unfolding(crate::specs::Scans::more_letters_in, crate::specs::Scans::next_letter_in))]
    fn more_letters(&mut self, alloc: Global, room: u32) -> Result<Option<LetterText>, Stop>
        ensures { Gives self.new.rest.now result (more_letters_in (simplex_in room) self.old.rest.now) }
    {
        if self.may(b']')? {
            return Ok(None);
        }
        self.behind_gap(alloc, room)
    }

    /// Letters, one at least, and the end of the word.
    #[cycle(simplices)]
    #[tactic(auto, unfolding(crate::specs::Scans::some_letters_in))]
    fn some_letters(&mut self, alloc: Global, room: u32) -> Result<Seq<LetterText>, Stop>
        ensures { Gives self.new.rest.now result (some_letters_in (simplex_in room) self.old.rest.now) }
    {
        let mut letters = new_seq(alloc);
        letters.push(self.letter(alloc, room)?)?;
        while let Some(letter) = self.more_letters(alloc, room)? {
            letters.push(letter)?;
        }
        Ok(letters)
    }

    /// The letters of a word, behind its opening bracket, and its end.
    #[cycle(simplices)]
    #[tactic(auto, unfolding(crate::specs::Scans::word_in, crate::specs::Scans::letters_behind_in))]
    fn word(&mut self, alloc: Global, room: u32) -> Result<Seq<LetterText>, Stop>
        ensures { Gives self.new.rest.now result (word_in (simplex_in room) self.old.rest.now) }
    {
        if self.may(b']')? {
            return Ok(new_seq(alloc));
        }
        self.some_letters(alloc, room)
    }

    /// Two simplices, behind their opening sign.
    #[cycle(simplices)]
    #[tactic(auto, unfolding(crate::specs::Scans::pair_in))]
    fn pair(&mut self, alloc: Global, room: u32) -> Result<BodyText, Stop>
        ensures { Gives self.new.rest.now result (pair_in (simplex_in room) self.old.rest.now) }
    {
        let left = self.simplex(alloc, room)?;
        self.sign(b',')?;
        let right = self.simplex(alloc, room)?;
        self.sign(b'>')?;
        Ok(BodyText::Pair(Box::new(alloc, left)?, Box::new(alloc, right)?))
    }

    /// What stands behind the sign of a body.
    #[cycle(simplices)]
    #[tactic(auto, unfolding(crate::specs::Scans::behind_in))]
    fn behind(&mut self, alloc: Global, room: u32, sign: BodySign) -> Result<BodyText, Stop>
        ensures { Gives self.new.rest.now result (behind_in (simplex_in room) sign self.old.rest.now) }
    {
        match sign {
            BodySign::Star => Ok(BodyText::Star),
            BodySign::Name(name) => Ok(BodyText::Name(name)),
            BodySign::Up => {
                let simplex = self.simplex(alloc, room)?;
                Ok(BodyText::Up(Box::new(alloc, simplex)?))
            }
            BodySign::Pair => self.pair(alloc, room),
            BodySign::Ints => Ok(BodyText::Ints(self.ints(alloc)?)),
            BodySign::Word => Ok(BodyText::Word(self.word(alloc, room)?)),
        }
    }

    #[cycle(simplices)]
    #[tactic(auto, unfolding(crate::specs::Scans::body_in))]
    fn body(&mut self, alloc: Global, room: u32) -> Result<BodyText, Stop>
        ensures { Gives self.new.rest.now result (body_in room (simplex_in room) self.old.rest.now) }
    {
        let sign = self.head(room)?;
        self.behind(alloc, room, sign)
    }

    /// A simplex, where so many signs may enclose what is within it.
    #[cycle(simplices)]
    #[tactic(auto, unfolding(crate::specs::Scans::simplex_over))]
    fn over(&mut self, alloc: Global, room: u32) -> Result<SimplexText, Stop>
        ensures { Gives self.new.rest.now result (simplex_over room (simplex_in room) self.old.rest.now) }
    {
        let degens = self.prefix(alloc)?;
        let body = self.body(alloc, room)?;
        Ok(SimplexText { degens, body })
    }

    /// A simplex, where so many simplices may enclose one another, itself among them.
    #[cycle(simplices)]
    #[tactic(auto, using(crate::proofs::Steps::simplex_in_some), unfolding(crate::specs::Scans::simplex_in))]
    pub fn simplex(&mut self, alloc: Global, room: u32) -> Result<SimplexText, Stop>
        ensures { Gives self.new.rest.now result (simplex_in room self.old.rest.now) }
    {
        if room == 0 {
            return Err(Stop::Fault(self.rest.len()));
        }
        self.over(alloc, room - 1)
    }
}
