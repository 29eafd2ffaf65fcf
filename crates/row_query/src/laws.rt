//! Laws of queries, each a function whose contract says it: calling it does nothing.
ghost use Rattle.std.specs.Prelude.{◌≡◌};
ghost use Rattle.collections.specs.Refusal.{IsClear};
ghost use Rattle.schema_version.specs.Version.{Version};
ghost use Rattle.row_query.specs.declared.fault.QueryFault.{QueryFault};
ghost use Rattle.row_query.specs.declared.query.Query.{Query as Asked};
ghost use Rattle.row_query.specs.Refused.{IsRefused, IsSound};

/// A query has at most one refusal, and none if its table is there and no part of it has a fault.
/// So what `answer` says of its refusals tells which one comes.
pub fn lemma_one_refusal()
    ensures only_one { (version : Version) (query : Asked) (first second : QueryFault) → IsRefused version query first → IsRefused version query second → first ≡ second }
    ensures or_none { (version : Version) (query : Asked) → IsSound version query → IsClear (IsRefused version query) }
{}
