//! Laws of the format. Each is the contract of a function that does nothing.
ghost use Rattle.std.specs.Prelude.{◌≡◌, ◌≢◌, ◌⊎◌, ℕ, List};
ghost use Rattle.clog_spec.specs.Crc.{IsBytes};
ghost use Rattle.clog_base.specs.declared.cell.Table.{Table};
ghost use Rattle.clog_table.specs.declared.table_file.TableFile.{TableFile};
ghost use Rattle.clog_table.specs.declared.fault.TableFault.{TableFault};
ghost use Rattle.clog_table.specs.declared.fault.TableFault.TheVariants.{OutOfMemory};
ghost use Rattle.clog_table.specs.Refusals.{IsFileOf, Refuses};

/// Bytes are the spelling of one table file, or are refused for one fault. (Want of memory says
/// nothing of the bytes.)
pub fn table_laws()
    // No two files have one spelling.
    ensures one_file { (table : Table) (bytes : List ℕ) (file other : TableFile)
        → IsFileOf table bytes file → IsFileOf table bytes other → file ≡ other }
    // Bytes have one refusal at most.
    ensures one_refusal { (table : Table) (bytes : List ℕ) (fault other : TableFault)
        → Refuses table bytes fault → Refuses table bytes other
        → fault ≢ OutOfMemory → other ≢ OutOfMemory → fault ≡ other }
    // A table file is not refused.
    ensures never_both { (table : Table) (bytes : List ℕ) (file : TableFile) (fault : TableFault)
        → IsFileOf table bytes file → Refuses table bytes fault → fault ≡ OutOfMemory }
    // What is no table file is refused.
    ensures one_of_both { (table : Table) (bytes : List ℕ) → IsBytes bytes
        → ((file : TableFile) × IsFileOf table bytes file)
        ⊎ ((fault : TableFault) × (fault ≢ OutOfMemory) × Refuses table bytes fault) }
{}
