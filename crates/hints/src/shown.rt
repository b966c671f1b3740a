//! Whether hints are shown.

ghost use Rattle.std.specs.Prelude.{◌≡◌};
ghost use Rattle.hints.specs.Settings.{setting_named, shows};

/// When hints are shown.
#[derive(Clone, Copy, Debug, PartialEq, Eq)]
pub enum Setting {
    /// Always.
    Shown,
    /// Never.
    Hidden,
    /// If the standard error is a terminal.
    OnTerminal,
}

impl Setting {
    /// Returns what a value of the variable `PDGF_HINTS` says: `1` shows hints, `0` hides them, and any other value leaves them to
    /// terminals.
    pub fn named(value: &str) -> Setting
        ensures { result ≡ setting_named value.now }
    {
        match value {
            "1" => Setting::Shown,
            "0" => Setting::Hidden,
            _ => Setting::OnTerminal,
        }
    }

    /// Whether hints are shown, if the standard error is a terminal or isn't.
    pub fn shows(self, is_terminal: bool) -> bool
        ensures { result ≡ shows self is_terminal }
    {
        match self {
            Setting::Shown => true,
            Setting::Hidden => false,
            Setting::OnTerminal => is_terminal,
        }
    }
}
