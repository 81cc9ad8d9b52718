//! Laws of the places of syntax faults.

ghost use Rattle.std.specs.Prelude.{◌≡◌, ◌≢◌, ◌≤◌, suc, ◌∷◌, ◌++◌, ℕ, List, Ok, Err};
ghost use Rattle.fy_base.specs.declared.data.Place.{Place};
ghost use Rattle.fy_lexer.specs.declared.token.Token.{Token};
ghost use Rattle.fy_lexer.specs.declared.token.TokenKind.TheVariants.{End};
ghost use Rattle.fy_syntax.specs.Nesting.{nesting};
ghost use Rattle.fy_syntax.specs.Reader.{Fault, read_phrase};
ghost use Rattle.fy_syntax.specs.Spells.{IsProgram};
ghost use Rattle.fy_syntax.specs.Trees.{Tree};
ghost use Rattle.fy_places.specs.Begins.{BeginsWithin, IsDepthFault, IsFirstBad, IsSyntaxFault};

/// Where reading with `depth` nodes below the outermost stops, the first bad token of programs that nest one more stands:
/// where a token can't follow, where a phrase is read and it isn't the end that is left, and where a token nests too deep.
pub fn places_are_exact()
    ensures wrong { (depth : ℕ) (tokens rest : List Token) (bad : Token)
        → read_phrase depth tokens ≡ Err (Fault.wrong (bad ∷ rest))
        → IsSyntaxFault (suc depth) tokens bad.place }
    ensures left { (depth : ℕ) (tokens rest : List Token) (bad : Token) (tree : Tree)
        → read_phrase depth tokens ≡ Ok (tree, bad ∷ rest) → bad.kind ≢ End
        → IsSyntaxFault (suc depth) tokens bad.place }
    ensures deep { (depth : ℕ) (tokens rest : List Token) (bad : Token)
        → read_phrase depth tokens ≡ Err (Fault.deep (bad ∷ rest))
        → IsDepthFault (suc depth) tokens bad.place }
{}

/// What begins with more tokens begins with fewer. So a list of tokens has at most one first bad token, whose fault is of
/// one of the two kinds, and a program within the nesting has none.
pub fn places_are_unique()
    ensures fewer { (depth : ℕ) (tokens more : List Token)
        → BeginsWithin depth (tokens ++ more) → BeginsWithin depth tokens }
    ensures syntax { (depth : ℕ) (tokens : List Token) (place other : Place)
        → IsSyntaxFault depth tokens place → IsSyntaxFault depth tokens other → place ≡ other }
    ensures depth { (depth : ℕ) (tokens : List Token) (place other : Place)
        → IsDepthFault depth tokens place → IsDepthFault depth tokens other → place ≡ other }
    ensures apart { (depth : ℕ) (tokens : List Token) (place other : Place)
        → IsSyntaxFault depth tokens place → ¬ IsDepthFault depth tokens other }
    ensures program { (depth : ℕ) (tokens before : List Token) (bad : Token) (tree : Tree)
        → IsProgram tree tokens → nesting tree ≤ depth → ¬ IsFirstBad depth tokens before bad }
{}
