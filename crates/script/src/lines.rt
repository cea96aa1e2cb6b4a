// The lines of a script: which of them are calls, and the towers that the engines stand over.
ghost use Rattle.std.specs.Prelude.{◌≡◌, ◌-◌, vec_len, slice_index_or};
ghost use Rattle.histories.specs.declared.Call.TheVariants.{Pop};

use crate::words::{Said, read_line, says_nothing};
use histories::Call;
use std::alloc::{AllocError, Global};
use towers::Tower;

#[derive(Clone, Copy)]
pub struct Towers {
    pub first: Tower,
    pub second: Tower,
}

// Each line that is answered is a call, by its place among the calls, or none that is known. The calls are a list of their own,
// since a run takes them as a slice.
#[derive(Drop)]
pub struct Script {
    pub towers: Option<Towers>,
    pub lines: Vec<Option<usize>>,
    pub calls: Vec<Call>,
}

impl Script {
    // A script whose first line names no tower that is known has none, and all its lines are unreadable.
    pub fn read<K: Fn(Tower) -> bool>(
        alloc: Global,
        text: &str,
        known: K,
    ) -> Result<Script, AllocError>
        requires { K.IsAlwaysCallable known }
    {
        let mut script = Script {
            towers: None,
            lines: Vec::new(alloc),
            calls: Vec::new(alloc),
        };
        let mut lines = text.lines().filter(|line| !says_nothing(line));
        let Some(first) = lines.next() else {
            return Ok(script);
        };
        match read_line(first) {
            Some(Said::Over(tower)) if known(tower) => script.towers = Some(Towers {
                first: tower,
                second: tower,
            }),
            _ => script.lines.push(None)?,
        }
        for line in lines {
            match read_line(line) {
                Some(Said::Against(tower)) if known(tower) => script.compare_with(tower)?,
                Some(Said::Call(call)) => script.call(call)?,
                _ => script.lines.push(None)?,
            }
        }
        Ok(script)
    }

    fn call(&mut self, call: Call) -> Result<(), AllocError> {
        if self.towers.is_none() {
            return Ok(self.lines.push(None)?);
        }
        self.lines.push(Some(self.calls.len()))?;
        Ok(self.calls.push(call)?)
    }

    // A second tower of other sizes is as unknown as one that is not on the list.
    fn compare_with(&mut self, second: Tower) -> Result<(), AllocError> {
        match self.towers {
            Some(Towers { first, .. }) if first.halvings() == second.halvings() => {
                self.towers = Some(Towers { first, second });
                Ok(())
            }
            _ => Ok(self.lines.push(None)?),
        }
    }

    // The call that both engines answer in the end: the last one, or a pop where there was none.
    pub fn last_call(&self) -> Call
        ensures { result ≡ slice_index_or self.now.calls.items (vec_len self.now.calls - 1) Pop }
    {
        self.calls.last().copied().unwrap_or(Call::Pop)
    }
}
