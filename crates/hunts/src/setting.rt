//! The settings of a hunt that command words change.

ghost use Rattle.std.specs.Prelude.{◌≡◌, ◌≢◌, ℕ, IfSome, IfNone, decimal};
ghost use Rattle.client_scripts.specs.Drawn.{IsWorkload};
ghost use Rattle.hunts.specs.Asking.{setting_named, least, most, IsWithin, changed, bounds_text};

use crate::Settings;
use client_scripts::Workload;
use seq_objects::number;
use text_fields::{TEXT_CALLERS, TEXT_CALLS};

/// A setting of a hunt that command words change.
#[derive(Clone, Copy, Debug, PartialEq, Eq)]
pub enum Setting {
    /// The seed of the first run.
    Seed,
    /// How many runs are made at most.
    Runs,
    /// How many callers each run has.
    Callers,
    /// How many calls each caller makes.
    Calls,
    /// Each number that an operation takes is below this one.
    Values,
}

impl Setting {
    /// The setting that a word names.
    #[tactic(auto, unfolding(crate::specs::Asking::setting_named))]
    pub(crate) fn from_name(name: &str) -> Option<Setting>
        ensures { result ≡ setting_named name.now }
    {
        match name {
            "seed" => Some(Setting::Seed),
            "runs" => Some(Setting::Runs),
            "callers" => Some(Setting::Callers),
            "calls" => Some(Setting::Calls),
            "values" => Some(Setting::Values),
            _ => None,
        }
    }

    fn least(self) -> u64
        ensures { result ≡ least self }
    {
        match self {
            Setting::Seed => 0,
            Setting::Runs | Setting::Callers | Setting::Calls | Setting::Values => 1,
        }
    }

    fn most(self) -> u64
        ensures { result ≡ most self }
    {
        match self {
            Setting::Seed | Setting::Runs => u64::MAX,
            Setting::Callers => TEXT_CALLERS,
            Setting::Calls => TEXT_CALLS,
            Setting::Values => u32::MAX as u64,
        }
    }

    /// The number within the setting's bounds whose decimal digits a word is.
    pub(crate) fn number(self, word: &str) -> Option<u64>
        ensures found { IfSome result (λ n. (decimal n ≡ word.now) × IsWithin self n) }
        ensures none { IfNone result ((n : ℕ) → IsWithin self n → decimal n ≢ word.now) }
    {
        let number = number(word.as_bytes())?;
        if self.least() <= number && number <= self.most() {
            Some(number)
        } else {
            None
        }
    }

    /// The settings with this number in place of the one that they have.
    pub(crate) fn changed(self, number: u64, settings: Settings) -> Settings
        requires within { IsWithin self number }
        requires workload { IsWorkload settings.workload }
        ensures changed { result ≡ changed self number settings }
        ensures workload { IsWorkload result.workload }
    {
        let workload = settings.workload;
        match self {
            Setting::Seed => Settings {
                seed: number,
                ..settings
            },
            Setting::Runs => Settings {
                runs: number,
                ..settings
            },
            Setting::Callers => Settings {
                workload: Workload {
                    callers: number as u32,
                    ..workload
                },
                ..settings
            },
            Setting::Calls => Settings {
                workload: Workload {
                    calls: number,
                    ..workload
                },
                ..settings
            },
            Setting::Values => Settings {
                workload: Workload {
                    values: number as u32,
                    ..workload
                },
                ..settings
            },
        }
    }

    /// What is written where the setting goes out of its bounds.
    pub(crate) fn bounds(self) -> &'static [u8]
        ensures { result.now ≡ bounds_text self }
    {
        match self {
            Setting::Seed => b"seed is a number from 0 to 18446744073709551615\n",
            Setting::Runs => b"runs is a number from 1 to 18446744073709551615\n",
            Setting::Callers => b"callers is a number from 1 to 16\n",
            Setting::Calls => b"calls is a number from 1 to 256\n",
            Setting::Values => b"values is a number from 1 to 4294967295\n",
        }
    }
}
