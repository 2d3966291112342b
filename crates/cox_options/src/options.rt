//! The options as values.
ghost use Rattle.std.specs.Prelude.{◌≤◌, ◌≤ℤ◌, pos};
ghost use Rattle.cox_options.specs.declared.options.TheConstants.{MAX_CONTEXT, MAX_ROOTS, MAX_COEF, MAX_WORKERS, DEFAULT_WORKERS};

/// The greatest number that `--context` takes, and its default.
pub const MAX_CONTEXT: u32 = 1_048_576;

/// The same in decimal digits.
pub const MAX_CONTEXT_TEXT: &str = "1048576";

/// The greatest number that `--roots` takes, and its default.
pub const MAX_ROOTS: u32 = 4_096;

/// The same in decimal digits.
pub const MAX_ROOTS_TEXT: &str = "4096";

/// The greatest number that `--coef` takes, and its default: the greatest of type `i64`.
pub const MAX_COEF: u64 = 9_223_372_036_854_775_807;

/// The same in decimal digits.
pub const MAX_COEF_TEXT: &str = "9223372036854775807";

/// The greatest number that `--workers` takes.
pub const MAX_WORKERS: u32 = 16;

/// How many workers there are by default.
pub const DEFAULT_WORKERS: u32 = 1;

/// The same in decimal digits.
pub const DEFAULT_WORKERS_TEXT: &str = "1";

/// What the arguments ask for. Each field is within its range.
#[derive(Clone, Copy, Debug, PartialEq, Eq)]
pub struct Options {
    // How many members a context may have, from 1 to `MAX_CONTEXT`.
    pub(crate) context: u32,
    // How many small roots a group may have, from 1 to `MAX_ROOTS`.
    pub(crate) roots: u32,
    // How large a coefficient may be in absolute value, from 1 to `MAX_COEF`.
    pub(crate) coef: i64,
    // How many workers make rows and answer blocks of lists, from 1 to `MAX_WORKERS`.
    pub(crate) workers: u32,
    ghost context_in_range: { (1 ≤ context) × (context ≤ MAX_CONTEXT) },
    ghost roots_in_range: { (1 ≤ roots) × (roots ≤ MAX_ROOTS) },
    ghost coef_in_range: { (pos 1 ≤ℤ coef) × (coef ≤ℤ pos MAX_COEF) },
    ghost workers_in_range: { (1 ≤ workers) × (workers ≤ MAX_WORKERS) },
}

impl Options {
    ghost use Rattle.std.specs.Prelude.{◌≡◌};

    /// How many members a context may have, from 1 to `MAX_CONTEXT`.
    pub fn context(&self) -> u32
        ensures context { result ≡ self.now.context }
        ensures least { 1 ≤ result }
        ensures most { result ≤ MAX_CONTEXT }
    {
        self.context
    }

    /// How many small roots a group may have, from 1 to `MAX_ROOTS`.
    pub fn roots(&self) -> u32
        ensures roots { result ≡ self.now.roots }
        ensures least { 1 ≤ result }
        ensures most { result ≤ MAX_ROOTS }
    {
        self.roots
    }

    /// How large a coefficient of a Kazhdan-Lusztig polynomial may be in absolute value, from 1 to `MAX_COEF`.
    pub fn coef(&self) -> i64
        ensures coef { result ≡ self.now.coef }
        ensures least { pos 1 ≤ℤ result }
        ensures most { result ≤ℤ pos MAX_COEF }
    {
        self.coef
    }

    /// How many workers make rows and answer blocks of lists, from 1 to `MAX_WORKERS`. No answer depends on it.
    pub fn workers(&self) -> u32
        ensures workers { result ≡ self.now.workers }
        ensures least { 1 ≤ result }
        ensures most { result ≤ MAX_WORKERS }
    {
        self.workers
    }
}

impl Default for Options {
    ghost use Rattle.std.specs.Prelude.{◌≡◌};

    /// Each option's default: the context `MAX_CONTEXT`, `MAX_ROOTS` roots, coefficients up to `MAX_COEF`, and one worker.
    fn default() -> Options
        ensures context { result.context ≡ MAX_CONTEXT }
        ensures roots { result.roots ≡ MAX_ROOTS }
        ensures coef { result.coef ≡ pos MAX_COEF }
        ensures workers { result.workers ≡ DEFAULT_WORKERS }
    {
        Options {
            context: MAX_CONTEXT,
            roots: MAX_ROOTS,
            coef: MAX_COEF as i64,
            workers: DEFAULT_WORKERS,
        }
    }
}
