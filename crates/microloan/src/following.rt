//! How far a file is checked, told to the person at a terminal.

use crate::telling::tell_person;
use mf_store_schema::Progress;
use mf_store_sound::PARTS;
use std::rt::HostRuntime;
use std::time::{Duration, Instant};

/// How many seconds a check may take before anything is told.
const QUIET_SECONDS: u64 = 1;

/// Follows the check of a file, and tells after each table how far it is, once that takes long.
#[derive(Drop)]
pub struct Following<'a> {
    rt: &'a HostRuntime,
    file: &'a str,
    /// None where the clock can't be read: then nothing is told.
    begun: Option<Instant>,
    passed: u32,
}

impl<'a> Following<'a> {
    /// Follows a check that begins now.
    pub fn new(rt: &'a HostRuntime, file: &'a str) -> Following<'a> {
        Following {
            rt,
            file,
            begun: Instant::now(rt).ok(),
            passed: 0,
        }
    }

    /// Whether the check has taken long.
    fn is_long(&self) -> bool {
        match &self.begun {
            Some(begun) =>
                matches!(begun.elapsed(self.rt), Ok(time) if time > Duration::from_secs(QUIET_SECONDS)),
            None => false,
        }
    }
}

impl<'a> Progress for Following<'a> {
    fn pass(&mut self) {
        self.passed = self.passed.saturating_add(1);
        if self.is_long() {
            tell_person(
                self.rt,
                format_args!(
                    "checking {}: {} of {PARTS} tables read",
                    self.file, self.passed
                ),
            );
        }
    }
}
