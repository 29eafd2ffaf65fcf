//! Laws of declarations, each a function whose contract says it: calling it does nothing.
ghost use Rattle.std.specs.Prelude.{◌≡◌, List, Option, MatchOption};
ghost use Rattle.schema_version.specs.declared.table.TableDef.{TableDef as Declared};
ghost use Rattle.schema_version.specs.Declare.{IsLawful};
ghost use Rattle.table_faults.specs.Faults.{IsFinding};
ghost use Rattle.table_faults.specs.declared.fault.TableFault.{TableFault as Fault};

/// Tables have just one first fault, or none, which is so exactly if they may be declared. So what
/// `declaration_fault` says tells its answer.
pub fn lemma_one_fault()
    ensures only_one { (tables : List Declared) (first second : Option Fault) → IsFinding tables first → IsFinding tables second → first ≡ second }
    ensures or_lawful { (tables : List Declared) (found : Option Fault) → IsFinding tables found → MatchOption found (IsLawful tables) (λ _. ¬ (IsLawful tables)) }
{}
