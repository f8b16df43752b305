//! What the lines of a script give its sessions to do.
ghost use Rattle.std.specs.Prelude.{◌<◌, ◌≤◌, vec_len};
ghost use Rattle.reg_model.specs.declared.limits.TheConstants.{SESSIONS_LIMIT};

use crate::part::{Part, make_parts};
use reg_script::{Line, Setting, parse};
use reg_sessions::{Ask, Work};
use std::alloc::{AllocError, Global};

/// What the lines of a script give its sessions to do, and what later lines go by.
#[derive(Drop)]
pub struct Plan {
    hives: u8,
    moment: u64,
    session: u8,
    hive: u8,
    /// Of each session.
    parts: Vec<Part>,
    ghost few: { vec_len parts ≤ SESSIONS_LIMIT },
    ghost seated: { session < vec_len parts },
}

impl Plan {
    ghost use Rattle.std.specs.Prelude.{◌≡◌, ◌<◌, ◌≤◌, ℕ, [], ◌∷◌, ◌++◌, length, List, IfOk, OnOk};
    ghost use Rattle.reg_model.specs.declared.limits.TheConstants.{SESSIONS_LIMIT};
    ghost use Rattle.reg_script.specs.LineMeanings.{as_session, bad};
    ghost use Rattle.reg_script.specs.ReadLines.{said};
    ghost use Rattle.reg_workers.specs.Internal.Plans.{meaning_asking, IsPlanned, IsPlanOf};

    /// The plan before the first line, for a script on so many hives.
    pub fn new(alloc: Global, hives: u8) -> Result<Plan, AllocError>
        ensures { IfOk result (λ plan. IsPlanOf hives [] plan) }
    {
        let mut parts = Vec::new(alloc);
        parts.push(Part::new(alloc))?;
        Ok(Plan {
            hives,
            moment: 0,
            session: 0,
            hive: 0,
            parts,
        })
    }

    /// What each session is to do.
    pub fn into_parts(self) -> Vec<Part>
        ensures parts { result ≡ self.parts }
        ensures some { 0 < length result.items }
        ensures few { length result.items ≤ SESSIONS_LIMIT }
    {
        let Plan { parts, .. } = self;
        parts
    }

    /// Adds a line, without its LF.
    pub fn add_line(&mut self, alloc: Global, line: &[u8]) -> Result<(), AllocError>
        ensures { OnOk result ((hives : ℕ) (lines : List (List ℕ)) → IsPlanOf hives lines self.old → IsPlanOf hives (lines ++ line.now ∷ []) self.new) }
    {
        let line = parse(alloc, self.hives, line)?;
        self.add(alloc, line)?;
        Ok(())
    }

    /// Adds a line that was understood.
    fn add(&mut self, alloc: Global, line: Line) -> Result<(), AllocError>
        ensures { OnOk result (IsPlanned (said line) self.old self.new) }
    {
        match line {
            Line::Nothing => Ok(()),
            Line::Setting(setting) => self.set(alloc, setting),
            Line::Call(call) => self.add_work(Ask::Call(call)),
            Line::Notice => self.add_work(Ask::TakeNotice),
            Line::Bad => self.add_bad(),
        }
    }

    /// Has later lines go by a setting.
    fn set(&mut self, alloc: Global, setting: Setting) -> Result<(), AllocError>
        ensures { OnOk result (IsPlanned (said (Line.Setting setting)) self.old self.new) }
    {
        match setting {
            Setting::At(moment) => {
                self.moment = moment;
                Ok(())
            }
            Setting::As(session) => self.set_session(alloc, session.number),
            Setting::Hive(hive) => {
                self.hive = hive;
                Ok(())
            }
        }
    }

    /// Sets the session of later lines; there is a part for it from now on.
    fn set_session(&mut self, alloc: Global, session: u8) -> Result<(), AllocError>
        requires { session < SESSIONS_LIMIT }
        ensures { OnOk result (IsPlanned (as_session session) self.old self.new) }
    {
        make_parts(alloc, &mut self.parts, session as usize + 1)?;
        self.session = session;
        Ok(())
    }

    /// Gives the session that is set a work, at the hive and the moment that are set.
    fn add_work(&mut self, ask: Ask) -> Result<(), AllocError>
        ensures { OnOk result (IsPlanned (meaning_asking ask) self.old self.new) }
    {
        let work = Work {
            hive: self.hive,
            moment: self.moment,
            ask,
        };
        self.parts[self.session as usize].add_work(work)
    }

    /// Has the session that is set told that a line is bad.
    fn add_bad(&mut self) -> Result<(), AllocError>
        ensures { OnOk result (IsPlanned bad self.old self.new) }
    {
        self.parts[self.session as usize].add_bad()
    }
}
