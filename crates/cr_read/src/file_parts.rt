//! The values of a problem file.

ghost use Rattle.std.specs.Prelude.{◌≡◌, length};

use cr_model::Com;
use std::marker::Model;

/// A method: its letter and its place notation, as they are written.
#[derive(Drop)]
pub struct MethodText<'a> {
    pub letter: &'a str,
    pub notation: &'a str,
}

impl<'a> Model for MethodText<'a> {
    ghost use Rattle.cr_model.specs.Files.{MethodText as Parts};

    ghost Value = { Parts };

    ghost view = { λ m. record { letter = m.letter.now; notation = m.notation.now } };
}

/// A call: its mark, its place notation, how many changes it replaces and the methods that it is for,
/// as they are written.
#[derive(Drop)]
pub struct CallText<'a> {
    pub mark: &'a str,
    pub notation: &'a str,
    pub over: Option<i64>,
    pub methods: Option<&'a str>,
}

impl<'a> Model for CallText<'a> {
    ghost use Rattle.std.specs.Prelude.{option_map};
    ghost use Rattle.cr_model.specs.Files.{CallText as Parts};

    ghost Value = { Parts };

    ghost view = { λ c. record {
      mark = c.mark.now;
      notation = c.notation.now;
      over = c.over;
      methods = option_map (λ s. s.now) c.methods;
    } };
}

/// A mark, a letter or a pattern, and its limits.
#[derive(Drop)]
pub struct Limited<'a> {
    pub text: &'a str,
    pub min: i64,
    pub max: i64,
}

impl<'a> Model for Limited<'a> {
    ghost use Rattle.cr_model.specs.Files.{Limited as Parts};

    ghost Value = { Parts };

    ghost view = { λ l. record { text = l.text.now; min = l.min; max = l.max } };
}

/// What a problem file says, with its defaults filled in.
#[derive(Drop)]
pub struct File<'a> {
    pub stage: i64,
    pub methods: Vec<MethodText<'a>>,
    pub calls: Vec<CallText<'a>>,
    pub min: i64,
    pub max: i64,
    pub parts: i64,
    pub counts: Vec<Limited<'a>>,
    pub leads: Vec<Limited<'a>>,
    pub patterns: Vec<Limited<'a>>,
    pub com: Option<Com>,
}

impl<'a> Model for File<'a> {
    ghost use Rattle.cr_model.specs.Files.{FileParts};

    ghost Value = { FileParts };

    ghost view = { λ f. record {
      stage = f.stage;
      methods = f.methods.items;
      calls = f.calls.items;
      min = f.min;
      max = f.max;
      parts = f.parts;
      counts = f.counts.items;
      leads = f.leads.items;
      patterns = f.patterns.items;
      «com» = f.com;
    } };
}

impl<'a> File<'a> {
    /// How many methods there are.
    pub fn method_count(&self) -> usize
        ensures { result ≡ length self.now.methods }
    {
        self.methods.len()
    }

    /// How many calls there are.
    pub fn call_count(&self) -> usize
        ensures { result ≡ length self.now.calls }
    {
        self.calls.len()
    }
}
