//! What is asked of a run.

ghost use Rattle.std.specs.Prelude.{◌≡◌, option_map};
ghost use Rattle.command_words.specs.Request.{has_rules};
ghost use Rattle.command_words.specs.Said.{begun_in, kept_in, no_rules, rules_seen, skipping, strictly};

/// What is asked of a run.
#[derive(Clone, Copy)]
pub struct RunRules<'a> {
    /// Whether each line has to name every input.
    pub strict: bool,
    /// Whether a line that gives no inputs is answered and passed over.
    pub skips: bool,
    /// The file that has the place where it begins, where one was said.
    pub from: Option<&'a str>,
    /// The file to which the place goes where it ends, where one was said.
    pub save: Option<&'a str>,
}

impl<'a> RunRules<'a> {
    // None.
    pub(crate) fn none() -> RunRules<'a>
        ensures { rules_seen result ≡ no_rules }
    {
        RunRules {
            strict: false,
            skips: false,
            from: None,
            save: None,
        }
    }

    // Whether something is asked.
    pub(crate) fn are_said(self) -> bool
        ensures { result ≡ has_rules (rules_seen self.entry) }
    {
        self.strict || self.skips || self.from.is_some() || self.save.is_some()
    }

    // That each line names every input, which is said once.
    pub(crate) fn strictly(self) -> Option<RunRules<'a>>
        ensures { option_map rules_seen result ≡ strictly (rules_seen self.entry) }
    {
        if self.strict {
            return None;
        }
        let mut rules = self;
        rules.strict = true;
        Some(rules)
    }

    // That lines are passed over, which is said once.
    pub(crate) fn skipping(self) -> Option<RunRules<'a>>
        ensures { option_map rules_seen result ≡ skipping (rules_seen self.entry) }
    {
        if self.skips {
            return None;
        }
        let mut rules = self;
        rules.skips = true;
        Some(rules)
    }

    // Where it begins, which is said once.
    pub(crate) fn begun_in(self, name: &'a str) -> Option<RunRules<'a>>
        ensures { option_map rules_seen result ≡ begun_in (rules_seen self.entry) name.now }
    {
        match self.from {
            Some(_) => None,
            None => {
                let mut rules = self;
                rules.from = Some(name);
                Some(rules)
            }
        }
    }

    // Where its place is kept, which is said once.
    pub(crate) fn kept_in(self, name: &'a str) -> Option<RunRules<'a>>
        ensures { option_map rules_seen result ≡ kept_in (rules_seen self.entry) name.now }
    {
        match self.save {
            Some(_) => None,
            None => {
                let mut rules = self;
                rules.save = Some(name);
                Some(rules)
            }
        }
    }
}
