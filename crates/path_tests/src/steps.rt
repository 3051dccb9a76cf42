// Calls of any pass, each of which leaves no snapshot open.
ghost use Rattle.std.specs.Prelude.{◌≡◌, None};

use bucket_terms::KeyPass;
use key_map::{Done, New, Pair, PassError};
use std::sync::Wait;

pub(crate) fn put<P: KeyPass>(
    rt: &impl Wait,
    pass: &mut P,
    line: u32,
    key: u64,
    val: u64,
) -> Result<Done, PassError>
    requires { (P.view pass.old).opened ≡ None }
    ensures { (P.view pass.new).opened ≡ None }
{
    match pass.put(rt, line, key, val) {
        Ok(done) => Ok(done),
        Err(error) => Err(error),
    }
}

pub(crate) fn put_new<P: KeyPass>(
    rt: &impl Wait,
    pass: &mut P,
    line: u32,
    key: u64,
    val: u64,
) -> Result<New, PassError>
    requires { (P.view pass.old).opened ≡ None }
    ensures { (P.view pass.new).opened ≡ None }
{
    match pass.put_new(rt, line, key, val) {
        Ok(answer) => Ok(answer),
        Err(error) => Err(error),
    }
}

pub(crate) fn remove<P: KeyPass>(
    rt: &impl Wait,
    pass: &mut P,
    line: u32,
    key: u64,
) -> Result<Done, PassError>
    requires { (P.view pass.old).opened ≡ None }
    ensures { (P.view pass.new).opened ≡ None }
{
    match pass.remove(rt, line, key) {
        Ok(done) => Ok(done),
        Err(error) => Err(error),
    }
}

// The place of a snapshot, and its first pair from the key on.
pub(crate) fn snapshot<P: KeyPass>(rt: &impl Wait, pass: &mut P, key: u64) -> (u64, Option<Pair>)
    requires { (P.view pass.old).opened ≡ None }
    ensures { (P.view pass.new).opened ≡ None }
{
    let at = pass.begin();
    let first = pass.next_from(rt, key);
    pass.end();
    (at, first)
}
