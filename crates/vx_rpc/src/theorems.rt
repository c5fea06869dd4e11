ghost use Rattle.std.specs.Prelude.{◌≡◌, ◌↔◌, ◌<◌, ◌^◌, ℕ, List, ◌++◌, IsTrue, Ok};
ghost use Rattle.vx_calls.specs.declared.calls.Role.{Role};
ghost use Rattle.vx_calls.specs.declared.calls.Proc.{Proc};
ghost use Rattle.vx_xdr.specs.Spelling.{AreBytes};
ghost use Rattle.vx_rpc.specs.declared.refusal.RpcRefusal.{RpcRefusal};
ghost use Rattle.vx_rpc.specs.Procedure.{program, proc_number, serves};
ghost use Rattle.vx_rpc.specs.Sorting.{Call, sorted, sorted_body};
ghost use Rattle.vx_rpc.specs.ReplyMeaning.{Success, Refused, reply_meaning};
ghost use Rattle.vx_rpc.specs.Spelled.{IsCall, IsSuccess, IsRefused};
ghost use Rattle.vx_rpc.specs.Wording.{call_message, success_message, refusal_message};

/// The header of a call that was written is sorted by the program, version and procedure that it was written with,
/// and whatever follows it is its arguments. So a call of a procedure that a channel has is sorted as that call.
pub fn calls_are_sorted()
    ensures read { (role : Role) (xid prog vers number : ℕ) (args : List ℕ)
        → xid < 2 ^ 32 → prog < 2 ^ 32 → vers < 2 ^ 32 → number < 2 ^ 32
        → sorted (call_message xid prog vers number ++ args) role
        ≡ sorted_body xid role (Ok (record { program = prog; version = vers; procedure = number; args = args })) }
    ensures served { (role : Role) (proc : Proc) (xid : ℕ) (args : List ℕ)
        → xid < 2 ^ 32 → IsTrue (serves role proc)
        → sorted (call_message xid (program role) 1 (proc_number proc) ++ args) role ≡ Call xid proc args }
{}

/// The header of a reply that was written is read as a success, and whatever follows it is its results.
pub fn successes_are_read()
    ensures { (xid : ℕ) (results : List ℕ)
        → xid < 2 ^ 32 → reply_meaning (success_message xid ++ results) ≡ Success xid results }
{}

/// A refusal that was written is read as that refusal.
pub fn refusals_are_read()
    ensures { (xid : ℕ) (refusal : RpcRefusal)
        → xid < 2 ^ 32 → reply_meaning (refusal_message xid refusal) ≡ Refused xid refusal }
{}

/// A message is sorted as a call exactly where its bytes are a call of that channel.
pub fn calls_are_spelled()
    ensures { (role : Role) (xid : ℕ) (proc : Proc) (args message : List ℕ)
        → AreBytes message → (sorted message role ≡ Call xid proc args) ↔ IsCall role xid proc args message }
{}

/// A message is read as a success or as a refusal exactly where its bytes are one.
pub fn replies_are_spelled()
    ensures success { (xid : ℕ) (results message : List ℕ)
        → AreBytes message → (reply_meaning message ≡ Success xid results) ↔ IsSuccess xid results message }
    ensures refused { (xid : ℕ) (refusal : RpcRefusal) (message : List ℕ)
        → AreBytes message → (reply_meaning message ≡ Refused xid refusal) ↔ IsRefused xid refusal message }
{}
