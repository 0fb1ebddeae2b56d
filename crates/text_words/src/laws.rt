//! Laws of lines and words, each the contract of a function that does nothing.

ghost use Rattle.std.specs.Prelude.{List, ℕ};
ghost use Rattle.std.specs.List.{All};
ghost use Rattle.text_words.specs.Text.{lines_of, words_in};
ghost use Rattle.text_words.specs.Places.{StandsIn};

/// Each line of a text stands in it at its place, and so does each word of the line.
pub fn words_stand_at_their_places()
    ensures lines { (text : List ℕ) → All (λ l. StandsIn text l.at l.bytes) (lines_of text) }
    ensures words { (text : List ℕ) → All (λ l. All (λ w. StandsIn text w.at w.bytes) (words_in l)) (lines_of text) }
{}
