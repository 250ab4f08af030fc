//! The words that are left, read one after another.

ghost use Rattle.std.specs.Prelude.{◌≡◌, ◌+◌, ◌^◌, ◌<◌, ◌≤◌, Some, None, true, false, drop, map, string_bytes, IfSome, IfOk, IfErr, OnOk, OnErr};
ghost use Rattle.psi_command.specs.Tables.{last_words};
ghost use Rattle.psi_command.specs.Words.{greatest_number, first_text, number_in, counted, follows, is_over};

use crate::words::numeral::number;

/// The words that are left, and the place of the first of them, counted from 1.
///
/// Each call that reads a word answers that place where the word is missing or isn't what must stand there.
#[derive(Drop, Debug)]
pub(crate) struct Cursor<'w> {
    left: &'w [String],
    place: u8,
}

impl<'w> Cursor<'w> {
    /// All words, the first of them at place 1.
    pub(crate) fn new(words: &'w [String]) -> Cursor<'w>
        ensures words { result.left.now ≡ words.now }
        ensures place { result.place ≡ 1 }
    {
        Cursor {
            left: words,
            place: 1,
        }
    }

    /// The first word, any text, which is then no longer left; or the place where it is missing.
    pub(crate) fn next_text(&mut self) -> Result<&'w str, u8>
        requires { self.now.place < 255 }
        ensures word { IfOk result (λ word. first_text (map string_bytes self.old.left.now) ≡ Some word.now) }
        ensures rest { OnOk result (map string_bytes self.new.left.now ≡ drop 1 (map string_bytes self.old.left.now)) }
        ensures place { OnOk result (self.new.place ≡ self.old.place + 1) }
        ensures missing { OnErr result (first_text (map string_bytes self.old.left.now) ≡ None) }
        ensures offends { IfErr result (λ place. place ≡ self.old.place) }
    {
        let [word, rest @ ..] = self.left else {
            return Err(self.place);
        };
        self.left = rest;
        self.place += 1;
        Ok(word.as_str())
    }

    /// The number of at most `most` that the first word is, which is then no longer left; or the place where
    /// it is missing or no such number.
    pub(crate) fn next_number(&mut self, most: u64) -> Result<u64, u8>
        requires { self.now.place < 255 }
        ensures number { IfOk result (λ n. number_in most (first_text (map string_bytes self.old.left.now)) ≡ Some n) }
        ensures bound { IfOk result (λ n. n ≤ most) }
        ensures rest { OnOk result (map string_bytes self.new.left.now ≡ drop 1 (map string_bytes self.old.left.now)) }
        ensures place { OnOk result (self.new.place ≡ self.old.place + 1) }
        ensures wrong { OnErr result (number_in most (first_text (map string_bytes self.old.left.now)) ≡ None) }
        ensures offends { IfErr result (λ place. place ≡ self.old.place) }
    {
        let place = self.place;
        let word = self.next_text()?;
        number(word, most).ok_or(place)
    }

    /// The number of streams from the first on that the first word is, which is then no longer left; or the
    /// place where it is missing or no such number. The streams are 1 to `most`, and the last of them is at
    /// most 2 to the power 64 less 1.
    pub(crate) fn next_count(&mut self, most: u32, first: u64) -> Result<u32, u8>
        requires { self.now.place < 255 }
        ensures count { IfOk result (λ n. counted first (number_in most (first_text (map string_bytes self.old.left.now))) ≡ Some n) }
        ensures streams { IfOk result (λ n. (1 ≤ n) × (n ≤ most) × (first + n ≤ 2 ^ 64)) }
        ensures rest { OnOk result (map string_bytes self.new.left.now ≡ drop 1 (map string_bytes self.old.left.now)) }
        ensures place { OnOk result (self.new.place ≡ self.old.place + 1) }
        ensures wrong { OnErr result (counted first (number_in most (first_text (map string_bytes self.old.left.now))) ≡ None) }
        ensures offends { IfErr result (λ place. place ≡ self.old.place) }
    {
        let place = self.place;
        let count = self.next_number(most as u64)?;
        if count == 0 || count - 1 > u64::MAX - first {
            return Err(place);
        }
        Ok(count as u32)
    }

    /// Whether a word is left, which is then no longer left: it has to be this one. Where it is another, the
    /// answer is its place.
    pub(crate) fn next_last(&mut self, last: &str) -> Result<bool, u8>
        requires { self.now.place < 255 }
        ensures word { IfOk result (λ found. follows last.now (map string_bytes self.old.left.now) ≡ Some found) }
        ensures rest { OnOk result (map string_bytes self.new.left.now ≡ drop 1 (map string_bytes self.old.left.now)) }
        ensures place { OnOk result (self.new.place ≡ self.old.place + 1) }
        ensures wrong { OnErr result (follows last.now (map string_bytes self.old.left.now) ≡ None) }
        ensures offends { IfErr result (λ place. place ≡ self.old.place) }
    {
        let place = self.place;
        self.place += 1;
        let [word, rest @ ..] = self.left else {
            return Ok(false);
        };
        if word.as_str() != last {
            return Err(place);
        }
        self.left = rest;
        Ok(true)
    }

    /// The number of customers that the words that are left ask for: none where no word is left, or after `closed` a number
    /// of at most 256, the last word. Else the answer is the place of the word that offends.
    #[tactic(auto, unfolding(crate::specs::Tables::last_words))]
    pub(crate) fn last_total(&mut self) -> Result<Option<u16>, u8>
        requires { self.now.place < 254 }
        ensures total { result ≡ last_words self.old.place (map string_bytes self.old.left.now) }
        ensures bound { IfOk result (λ total. IfSome total (λ n. n ≤ 256)) }
    {
        if !self.next_last("closed")? {
            self.finish()?;
            return Ok(None);
        }
        let total = self.next_number(256)? as u16;
        self.finish()?;
        Ok(Some(total))
    }

    /// Nothing, where no word is left; or the place of the first that is one too many.
    pub(crate) fn finish(&self) -> Result<(), u8>
        ensures over { OnOk result (is_over (map string_bytes self.now.left.now) ≡ true) }
        ensures more { OnErr result (is_over (map string_bytes self.now.left.now) ≡ false) }
        ensures offends { IfErr result (λ place. place ≡ self.now.place) }
    {
        match self.left {
            [] => Ok(()),
            [_, ..] => Err(self.place),
        }
    }
}
