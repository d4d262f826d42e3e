//! What the command words of a hunt ask for.

ghost use Rattle.std.specs.Prelude.{◌≡◌, map, string_bytes, IfOk, IfErr};
ghost use Rattle.client_scripts.specs.Drawn.{IsWorkload};
ghost use Rattle.hunts.specs.declared.runs.Settings.{Settings as TheSettings};
ghost use Rattle.hunts.specs.Asking.{Change, IsAsked, shown_of, settings_in};
ghost use Rattle.hunts.specs.AskedHunts.{IsNoChange, AsksForWorkload};

use crate::Settings;
use crate::setting::Setting;
use crate::shown::Shown;

/// What command words ask for.
#[derive(Clone, Copy, Debug, PartialEq, Eq)]
pub enum Asked {
    /// A hunt with these settings, whose catch is to be shown in this form.
    Hunt(Settings, Shown),
    /// No hunt: the number of this setting is out of its bounds.
    OutOfBounds(Setting),
    /// No hunt, since the words aren't those of one.
    Unknown,
}

// Why words change no settings.
#[derive(Clone, Copy, Debug, PartialEq, Eq)]
pub(crate) enum NoChange {
    OutOfBounds(Setting),
    Unknown,
}

impl Asked {
    /// What command words ask for, where the settings are `usual` unless words change them.
    pub fn from_words(usual: &Settings, words: &[String]) -> Asked
        // The usual settings' workload fits the texts of scripts, and has a value and an operation
        // to draw.
        requires usual { IsWorkload usual.now.workload }
        // The answer is what the words ask for.
        ensures asked { IsAsked usual.now (map string_bytes words.now) result }
        // The workload of a hunt that is asked for fits the texts of scripts too.
        ensures workload { AsksForWorkload result }
    {
        let (shown, rest) = shown_by(words);
        match changed_by(*usual, rest) {
            Ok(settings) => Asked::Hunt(settings, shown),
            Err(NoChange::OutOfBounds(setting)) => Asked::OutOfBounds(setting),
            Err(NoChange::Unknown) => Asked::Unknown,
        }
    }
}

// The form that words ask for, and the words that change settings.
fn shown_by(words: &[String]) -> (Shown, &[String])
    ensures shown { result.0 ≡ shown_of (map string_bytes words.now) }
    ensures rest { map string_bytes result.1.now ≡ settings_in (map string_bytes words.now) }
{
    match words {
        [word, rest @ ..] => match Shown::from_name(word.as_str()) {
            Some(shown) => (shown, rest),
            None => (Shown::Smaller, words),
        },
        [] => (Shown::Smaller, words),
    }
}

// The settings that words change some settings to.
fn changed_by(settings: Settings, words: &[String]) -> Result<Settings, NoChange>
    requires { IsWorkload settings.workload }
    ensures changed { IfOk result (Change settings (map string_bytes words.now)) }
    ensures workload { IfOk result (λ after. IsWorkload after.workload) }
    ensures none { IfErr result (λ _. (after : TheSettings)
        → ¬ Change settings (map string_bytes words.now) after) }
    ensures why { IfErr result (IsNoChange (map string_bytes words.now)) }
{
    match words {
        [] => Ok(settings),
        [name, digits, rest @ ..] => match Setting::from_name(name.as_str()) {
            Some(setting) => match setting.number(digits.as_str()) {
                Some(number) => changed_by(setting.changed(number, settings), rest),
                None => Err(NoChange::OutOfBounds(setting)),
            },
            None => Err(NoChange::Unknown),
        },
        _ => Err(NoChange::Unknown),
    }
}
