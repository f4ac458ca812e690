//! Laws of expressions.

ghost use Rattle.std.specs.Prelude.{◌≡◌, ℕ, List, slice_range};
ghost use Rattle.fisca_expr_parser.specs.Steps.Signs.{sign_by, sign_of};
ghost use Rattle.fisca_lexer.specs.Cuts.{IsCut};
ghost use Rattle.fisca_lexer.specs.declared.token.Token.{Token};
ghost use Rattle.fisca_expr_parser.specs.Spelling.{IsExpression};
ghost use Rattle.fisca_ast.specs.Tree.{Tree};
ghost use Rattle.fisca_expr_parser.specs.declared.sign.Sign.{Sign};
ghost use Rattle.fisca_expr_parser.specs.declared.mode.Mode.{Mode};

/// A list of tokens is the spelling of one tree at most.
pub fn each_list_of_tokens_has_one_tree()
    ensures { (mode : Mode) (tokens : List Sign) (a b : Tree) → IsExpression mode tokens a → IsExpression mode tokens b → a ≡ b }
{}

/// A token that stands between characters of a text is read whole, as all tokens of a text are.
pub fn each_token_is_read_whole()
    ensures { (text : List ℕ) (t : Token) → IsCut text t → sign_of text t ≡ sign_by t.class (slice_range text t.start t.end) }
{}
