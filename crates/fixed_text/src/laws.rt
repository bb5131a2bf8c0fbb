//! Laws of the definitions. These functions do nothing: the contract of each is the law.

ghost use Rattle.std.specs.Prelude.{◌≡◌, ◌∷◌, Bool, List, Some, true, ℕ, ℤ};
ghost use Rattle.std.specs.List.{list_all};
ghost use Rattle.fixed_word.specs.Decimal.{natural_text, whole_text};
ghost use Rattle.fixed_word.specs.Format.{IsWidth};
ghost use Rattle.fixed_word.specs.Policies.{checked};
ghost use Rattle.fixed_text.specs.Decimals.{decimal_of, decimal_value};
ghost use Rattle.fixed_text.specs.Numbers.{natural_in, numbered_in, whole_in};
ghost use Rattle.fixed_text.specs.Texts.{IsReader, no_space, numbered_text, spaced};
ghost use Rattle.fixed_text.specs.Tokens.{tokens_of};
ghost use Rattle.fixed_text.specs.Words.{word_name, word_named};

/// A capped number fits the same words as the number, with the same value: a number that is changed fits no word.
pub fn cap_law()
    ensures { (signed : Bool) (n : ℕ) (x : ℤ) → IsWidth n
        → checked signed n (Some (decimal_value (decimal_of x))) ≡ checked signed n (Some x) }
{}

/// Reading a token returns the value whose text the token is. The tokens of a piece, joined by single spaces, are the
/// piece. The tokens of joined tokens without spaces are those tokens.
pub fn reading_law()
    ensures naturals { IsReader natural_text natural_in }
    ensures wholes { IsReader whole_text whole_in }
    ensures numbered { (letter : ℕ) → IsReader (numbered_text letter) (numbered_in letter) }
    ensures words { IsReader word_name word_named }
    ensures cut { (piece : List ℕ) → spaced (tokens_of piece) ≡ piece }
    ensures joined { (token : List ℕ) (others : List (List ℕ))
        → list_all no_space (token ∷ others) ≡ true
        → tokens_of (spaced (token ∷ others)) ≡ token ∷ others }
{}
