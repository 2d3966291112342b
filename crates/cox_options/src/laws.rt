//! What the command's definition gives.
ghost use Rattle.std.specs.Prelude.{◌≡◌, ◌≢◌, ◌∷◌, [], ℕ, List, Some, All, IsSomeAnd, codes, not, slice_index};
ghost use Rattle.clap.specs.ValueTests.{is_unsigned_in};
ghost use Rattle.cox_options.specs.declared.options.TheConstants.{MAX_CONTEXT, MAX_ROOTS, MAX_COEF, DEFAULT_WORKERS};
ghost use Rattle.cox_options.specs.Arguments.{IsTaken, is_refused, decimal_value, given_number};
ghost use Rattle.cox_options.specs.Command.{number_options};
ghost use Rattle.cox_options.specs.OneOption.{IsInRange, joined_argument, named};

/// The program's name alone is taken, and gives each option its default.
pub fn name_alone_gives_defaults()
    ensures taken { (name : List ℕ) → IsTaken (name ∷ []) }
    ensures context { (name : List ℕ) → given_number (codes "context") (name ∷ []) ≡ Some MAX_CONTEXT }
    ensures roots { (name : List ℕ) → given_number (codes "roots") (name ∷ []) ≡ Some MAX_ROOTS }
    ensures coef { (name : List ℕ) → given_number (codes "coef") (name ∷ []) ≡ Some MAX_COEF }
    ensures workers { (name : List ℕ) → given_number (codes "workers") (name ∷ []) ≡ Some DEFAULT_WORKERS }
{}

/// For each option `--NAME=N` is taken exactly when N writes a number of its range, and gives that number.
pub fn joined_number_is_given()
    ensures taken { All (λ option. (name text : List ℕ) →
        is_refused (name ∷ joined_argument option text ∷ []) ≡ not (is_unsigned_in 1 option.most text)) number_options }
    ensures number { All (λ option. (name text : List ℕ) →
        given_number option.name (name ∷ joined_argument option text ∷ []) ≡ Some (decimal_value text)) number_options }
{}

/// So is `--NAME N`, where N does not begin with a hyphen.
pub fn next_number_is_given()
    ensures taken { All (λ option. (name text : List ℕ) → slice_index text 0 ≢ 45 →
        is_refused (name ∷ named option ∷ text ∷ []) ≡ not (is_unsigned_in 1 option.most text)) number_options }
    ensures number { All (λ option. (name text : List ℕ) → slice_index text 0 ≢ 45 →
        given_number option.name (name ∷ named option ∷ text ∷ []) ≡ Some (decimal_value text)) number_options }
{}

/// Arguments that are taken give each option a number of its range, whether they name it or not.
pub fn taken_arguments_give_numbers()
    ensures { (arguments : List (List ℕ)) → IsTaken arguments →
        All (λ option. IsSomeAnd (given_number option.name arguments) (IsInRange option)) number_options }
{}
