// What holds of all ranges.

ghost use Rattle.std.specs.Prelude.{◌≡◌, ◌↔◌, ◌++◌, ◌∷◌, [], ◌||◌, ℕ, List, codes, Some, Ok};
ghost use Rattle.std.specs.Cmp.{IsTotalOrder};
ghost use Rattle.semver.specs.Eval.{precedence_cmp};
ghost use Rattle.semver.specs.Grammar.{IsValid};
ghost use Rattle.semver.specs.Identifiers.{parts_of, parts_text};
ghost use Rattle.semver.specs.Parse.{Parts};
ghost use Rattle.semver.specs.declared.Version.{Version};
ghost use Rattle.version_ranges.specs.Conditions.{holds_of, meets_version};
ghost use Rattle.version_ranges.specs.Reading.{alternatives, alternatives_turn, conditions, conditions_turn, reading};
ghost use Rattle.version_ranges.specs.Terms.{Exact, Term};
ghost use Rattle.version_ranges.specs.Versions.{precedence};
ghost use Rattle.version_ranges.specs.Words.{operator_of, version_of};
ghost use Rattle.version_ranges.specs.declared.condition.Operator.{Operator};

/// Precedence is a total order, and the order of versions by the crate `semver`.
pub fn precedence_law()
    ensures total { IsTotalOrder precedence }
    ensures same { (a b : Version) → precedence_cmp a b ≡ precedence (parts_of a) (parts_of b) }
{}

/// A word writes a version exactly where it is the text of one, by the grammar of Semantic Versioning 2.0.0 with
/// major, minor and patch numbers of 64 bits.
pub fn version_law()
    ensures { (word : List ℕ) (version : Parts) → (version_of word ≡ Some version) ↔ ((parts_text version ≡ word) × IsValid version) }
{}

/// The reading by its rules, with no count of turns: the number of turns in the definitions is always enough.
pub fn turns_law()
    ensures conditions { (place : ℕ) (rest : List ℕ) → conditions place rest ≡ conditions_turn conditions place rest }
    ensures alternatives { (place : ℕ) (rest : List ℕ) → alternatives place rest ≡ alternatives_turn alternatives place rest }
{}

/// Two ranges joined by `||` are a range, which holds exactly where one of them does.
pub fn joined_law()
    ensures { (left right : List ℕ) (x y : List (List Term)) → reading left ≡ Ok x → reading right ≡ Ok y →
        (reading (left ++ codes "||" ++ right) ≡ Ok (x ++ y))
        × ((version : Parts) → holds_of (x ++ y) version ≡ (holds_of x version || holds_of y version)) }
{}

/// An operator and a version behind it are a range, which holds exactly by the precedence.
pub fn plain_law()
    ensures { (run word : List ℕ) (operator : Operator) (bound : Parts) → operator_of run ≡ Some operator → version_of word ≡ Some bound →
        (range : List (List Term)) × (reading (run ++ word) ≡ Ok range)
        × ((version : Parts) → holds_of range version ≡ meets_version operator (precedence version bound)) }
{}
