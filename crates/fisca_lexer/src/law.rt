//! A law of tokens.

ghost use Rattle.std.specs.Prelude.{◌≡◌, ℕ, List, IsUtf8, Ok};
ghost use Rattle.fisca_lexer.specs.Cuts.{AreCut};
ghost use Rattle.fisca_lexer.specs.Steps.Tokens.{tokens};
ghost use Rattle.fisca_lexer.specs.Texts.{joined};
ghost use Rattle.fisca_lexer.specs.declared.token.Token.{Token};

/// The tokens of a text stand one behind another, each between characters of it, also where texts side by side are made one.
pub fn tokens_stand_between_characters()
    ensures { (text : List ℕ) (found : List Token) → IsUtf8 text → tokens text ≡ Ok found → AreCut text 0 (joined found) }
{}
