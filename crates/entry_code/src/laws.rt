//! Laws of the codes, each a function whose contract says it: calling it does nothing.
ghost use Rattle.std.specs.Prelude.{◌≡◌, ℕ, List, ◌++◌};
ghost use Rattle.change_plan.specs.declared.change.Change.{Change};
ghost use Rattle.change_plan.specs.declared.least_plan.PlanStep.{PlanStep};
ghost use Rattle.keycode.specs.Valid.{IsValue};
ghost use Rattle.replay.specs.declared.entry.Entry.{Entry};
ghost use Rattle.row_map.specs.declared.shape.Row.{Row};
ghost use Rattle.row_query.specs.declared.query.Query.{Query};
ghost use Rattle.row_write.specs.declared.op.RowOp.{RowOp};
ghost use Rattle.schema_version.specs.declared.step.Move.{Move};
ghost use Rattle.schema_version.specs.declared.table.TableDef.{TableDef};
ghost use Rattle.entry_code.specs.Code.{entry_code, ops_code, step_code, opening_code, query_code, rows_code, changes_code, plan_code};
ghost use Rattle.entry_code.specs.Worked.{CodesSay};
ghost use Rattle.entry_code.specs.Known.{IsEntry, AreOps, AreMoves, IsOpening, IsQuery, AreRows, AreChanges, IsPlan};
ghost use Rattle.entry_code.specs.Parts.{IsSchema};
ghost use Rattle.entry_code.specs.Records.{Points, schema_parts_code, reorg_parts_code, points_code, draft_parts_code, IsReorgParts, ArePoints, IsDraft};
ghost use Rattle.entry_code.specs.declared.parts.SchemaParts.{SchemaParts};
ghost use Rattle.entry_code.specs.declared.parts.ReorgParts.{ReorgParts};
ghost use Rattle.entry_code.specs.declared.parts.DraftParts.{DraftParts};

/// No code begins another: if two entries' codes, each with bytes after it, are the same bytes, the
/// entries are the same, and so are the bytes after them. The same holds of operations, steps,
/// openings, queries, rows, changes and plans, of the parts of versions, reorganisations and drafts, and
/// of points. The calls that write a code tell that what is written is as its types say.
pub fn one_code()
    ensures entries { (a b : Entry) (x y : List ℕ) → IsEntry IsValue a → IsEntry IsValue b → entry_code a ++ x ≡ entry_code b ++ y → (a ≡ b) × (x ≡ y) }
    ensures ops { (a b : List RowOp) (x y : List ℕ) → AreOps IsValue a → AreOps IsValue b → ops_code a ++ x ≡ ops_code b ++ y → (a ≡ b) × (x ≡ y) }
    ensures steps { (a b : List Move) (x y : List ℕ) → AreMoves IsValue a → AreMoves IsValue b → step_code a ++ x ≡ step_code b ++ y → (a ≡ b) × (x ≡ y) }
    ensures openings { (a b : ℕ × List TableDef) (x y : List ℕ) → IsOpening a → IsOpening b → opening_code a ++ x ≡ opening_code b ++ y → (a ≡ b) × (x ≡ y) }
    ensures queries { (a b : Query) (x y : List ℕ) → IsQuery IsValue a → IsQuery IsValue b → query_code a ++ x ≡ query_code b ++ y → (a ≡ b) × (x ≡ y) }
    ensures rows { (a b : List Row) (x y : List ℕ) → AreRows IsValue a → AreRows IsValue b → rows_code a ++ x ≡ rows_code b ++ y → (a ≡ b) × (x ≡ y) }
    ensures changes { (a b : List Change) (x y : List ℕ) → AreChanges IsValue a → AreChanges IsValue b → changes_code a ++ x ≡ changes_code b ++ y → (a ≡ b) × (x ≡ y) }
    ensures plans { (a b : List PlanStep) (x y : List ℕ) → IsPlan IsValue a → IsPlan IsValue b → plan_code a ++ x ≡ plan_code b ++ y → (a ≡ b) × (x ≡ y) }
    ensures schemas { (a b : SchemaParts) (x y : List ℕ) → IsSchema IsValue a → IsSchema IsValue b → schema_parts_code a ++ x ≡ schema_parts_code b ++ y → (a ≡ b) × (x ≡ y) }
    ensures reorgs { (a b : ReorgParts) (x y : List ℕ) → IsReorgParts IsValue a → IsReorgParts IsValue b → reorg_parts_code a ++ x ≡ reorg_parts_code b ++ y → (a ≡ b) × (x ≡ y) }
    ensures points { (a b : Points) (x y : List ℕ) → ArePoints a → ArePoints b → points_code a ++ x ≡ points_code b ++ y → (a ≡ b) × (x ≡ y) }
    ensures drafts { (a b : DraftParts) (x y : List ℕ) → IsDraft a → IsDraft b → draft_parts_code a ++ x ≡ draft_parts_code b ++ y → (a ≡ b) × (x ≡ y) }
{}

/// The codes of an entry of each kind, of operations, of a step, of an opening, of a query, of rows,
/// of changes of each kind and of a plan, of the parts of a version, a reorganisation and a draft,
/// and of points, worked out by hand.
pub fn codes_say()
    ensures { CodesSay }
{}
