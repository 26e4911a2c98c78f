// Entries of the list: a byte for the kind of call, a byte for the refusal or 0, and 64-bit words, the most significant byte first.
ghost use Rattle.std.specs.Prelude.{◌≡◌, ◌<◌, ◌+◌, ◌^◌, ◌↔◌, ◌∷◌, ◌++◌, length, IsSome, IfSome, IsTrue};
ghost use Rattle.answers.specs.Answers.{means};
ghost use Rattle.answers.specs.Reply.{refusal_of, natural};
ghost use Rattle.edges.specs.Kind.{entry_size, kind_number, BeginsWithEntry};
ghost use Rattle.edges.specs.Words.{word_at, Each};

use crate::kind::Kind;
use answers::Refusal;

#[derive(Clone, Copy)]
pub struct Entry<'a> {
    pub kind: Kind,
    // The list's byte, which may be no refusal's number.
    pub refusal: u8,
    pub words: &'a [u8],
}

impl<'a> Entry<'a> {
    // The entry at the front of a list, if one stands there, and the rest of the list.
    pub fn split_first(list: &'a [u8]) -> Option<(Entry<'a>, &'a [u8])>
        ensures whole { IsSome result ↔ BeginsWithEntry list.now }
        ensures parts { IfSome result (λ r.
            list.now ≡ kind_number r.0.kind ∷ r.0.refusal ∷ (r.0.words.now ++ r.1.now)) }
        ensures size { IfSome result (λ r.
            2 + length r.0.words.now ≡ entry_size (kind_number r.0.kind)) }
    {
        let kind = Kind::try_from(*list.first()?).ok()?;
        let (front, rest) = list.split_at_checked(kind.entry_size())?;
        let [_, refusal, words @ ..] = front else {
            return None;
        };
        let entry = Entry {
            kind,
            refusal: *refusal,
            words,
        };
        Some((entry, rest))
    }

    // The word at an index, 0 where there is none: such entries are answered too.
    #[tactic(auto, unfolding(crate::specs::Words::word_at))]
    pub fn word(&self, index: usize) -> u64
        ensures { result ≡ word_at self.now.words.now index }
    {
        if index >= self.words.len() / 8 {
            return 0;
        }
        let start = 8 * index;
        fields::get(&self.words[start..start + 8])
    }

    // Whether an answer is the entry's: its refusal, and its value, which is the first word.
    pub fn has_answer(&self, answer: Result<u64, Refusal>) -> bool
        ensures { IsTrue result ↔ (refusal_of (means answer) ≡ self.now.refusal)
            × (natural (means answer) ≡ word_at self.now.words.now 0) }
    {
        answers::refusal_number(answer) == self.refusal && answers::value(answer) == self.word(0)
    }

    // Whether the words from an index on are those of a slice.
    pub fn has_words(&self, from: usize, slice: &[u64]) -> bool
        requires { from + length slice.now < 2 ^ 64 }
        ensures { IsTrue result ↔ Each (λ i. word_at self.now.words.now (from + i)) slice.now }
    {
        slice
            .iter()
            .enumerate()
            .all(|(i, word)| *word == self.word(from + i))
    }
}
