//! The secrets of a row.

ghost use Rattle.std.specs.Prelude.{◌≡◌, ◌≤◌, IfSome, length, true};
ghost use Rattle.std.specs.List.{list_all};
ghost use Rattle.many_runs.specs.Following.{is_short_secret};

use crate::files::bytes_of;
use flow_base::{Bytes, List};
use std::alloc::Global;

/// At most 64 secrets of at most 65,536 bytes each.
#[derive(Drop)]
pub struct Secrets {
    items: List<Bytes>,
    ghost few: { length items ≤ 64 },
    ghost short: { list_all is_short_secret items ≡ true },
}

impl Secrets {
    /// No secrets.
    fn new(alloc: Global) -> Secrets {
        Secrets {
            items: List::new(alloc),
        }
    }

    /// Puts a secret at the end, unless it is too long, there are 64 already, or memory is short; whether it is there.
    fn put(&mut self, secret: Bytes) -> bool {
        if secret.len() > 65_536 || self.items.len() >= 64 {
            return false;
        }
        self.items.push(secret).is_ok()
    }

    /// Puts the secret of a file at the end; whether it is there.
    fn put_file(&mut self, rt: &HostRuntime, name: &str) -> bool {
        match bytes_of(rt, name) {
            Some(secret) => self.put(secret),
            None => false,
        }
    }

    /// The secrets, in order.
    pub fn all(&self) -> &[Bytes]
        ensures few { length result.now ≤ 64 }
        ensures short { list_all is_short_secret result.now ≡ true }
    {
        self.items.as_slice()
    }

    /// The first secret.
    pub fn first(&self) -> Option<&Bytes>
        ensures { IfSome result (λ secret. length secret.now ≤ 65536) }
    {
        match self.items.get(0) {
            Some(secret) if secret.len() <= 65_536 => Some(secret),
            _ => None,
        }
    }
}

/// The secrets of files whose names stand with a space between them. One that is not there, or is too long, is left out.
pub fn secrets_of(rt: &HostRuntime, names: &str) -> Secrets {
    let mut secrets = Secrets::new(rt.alloc());
    for name in names.split(' ') {
        secrets.put_file(rt, name);
    }
    secrets
}
