//! The table of clients: an address and a moment each, the latest used first.
ghost use Rattle.std.specs.Prelude.{◌≡◌, ◌≤◌, ◌∷◌, true, false, None, Some, nat_eq, take, if◌then◌else◌};
ghost use Rattle.std.specs.Map.{lookup, remove_entry};
ghost use Rattle.std.specs.Option.{option_map};
ghost use Rattle.lru.specs.LruCache.{lru_cache};
ghost use Rattle.reply_core.specs.declared.code.Code.TheVariants.{Pass, Rate};
ghost use Rattle.kiss_gate.specs.Clients.{in_front, is_soon};

use lru::LruCache;
use reply_core::Code;
use tick_units::Local;

// The code of a client that last passed at a moment: `Rate` where the new moment lies less than the gap after that. Else it is
// `Pass`, and the new moment takes its place.
fn renew(last: &mut Local, gap: u64, at: Local) -> Code
    requires { gap ≤ 60000000 }
    ensures code { result ≡ (if is_soon gap at (Some last.old) then Rate else Pass) }
    ensures moment { last.new ≡ (if is_soon gap at (Some last.old) then last.old else at) }
{
    if at.get() < last.get() + gap {
        return Code::Rate;
    }
    *last = at;
    Code::Pass
}

// The code of a client that is in the table. Its pair moves to the first place. It keeps its moment where the code is `Rate`, and
// gets the new one where it is `Pass`. A client that is not in the table has no code, and nothing changes.
pub(crate) fn judge_known(
    clients: &mut LruCache<u32, Local>,
    ip: u32,
    gap: u64,
    at: Local,
) -> Option<Code>
    requires { gap ≤ 60000000 }
    ensures code { result ≡ option_map
        (λ last. if is_soon gap at (Some last) then Rate else Pass) (lookup (nat_eq ip) clients.old.entries) }
    ensures soon { result ≡ Some Rate → clients.new ≡
        lru_cache (in_front ip (lookup (nat_eq ip) clients.old.entries) clients.old.entries) clients.old.cap }
    ensures passed { result ≡ Some Pass → clients.new ≡
        lru_cache (take clients.old.cap ((ip, at) ∷ remove_entry (nat_eq ip) clients.old.entries)) clients.old.cap }
    ensures unknown { result ≡ None → clients.new ≡ clients.old }
{
    // For the prover: the table never exceeds its size.
    let _few = clients.len();
    match clients.get_mut(&ip) {
        Some(last) => Some(renew(last, gap, at)),
        None => None,
    }
}

// Puts a client's pair in the first place, with a new moment, and drops the last pair where there would be too many. Returns
// whether there was memory for it.
pub(crate) fn put_in_front(clients: &mut LruCache<u32, Local>, ip: u32, at: Local) -> bool
    ensures stored { result ≡ true → clients.new ≡
        lru_cache (take clients.old.cap ((ip, at) ∷ remove_entry (nat_eq ip) clients.old.entries)) clients.old.cap }
    ensures left { result ≡ false → clients.new ≡ clients.old }
    ensures known { result ≡ false → lookup (nat_eq ip) clients.old.entries ≡ None }
{
    // There is room for all pairs.
    let _within = clients.len();
    match clients.put(ip, at) {
        Ok(_) => true,
        Err(_) => false,
    }
}
