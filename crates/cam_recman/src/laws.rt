//! What holds of entries, of recovery, of snapshots and of migration.
ghost use Rattle.cam_recman.specs.Snapshot.{SnapshotKeepsAll};
ghost use Rattle.cam_recman.specs.Laws.{EntriesAreRead, ReadIsWritten, RecoveryIsOfTheRecords, OutcomesAreThoseSaid, HeldIsWhatWasSecured, CountsAreTheGreatest, CountIsTheLast, OneMoreEntryAdds, WrittenEntryAdds, StoppedAppendRecovers, FaultIsTheFirst, FirstIsTheFault};
ghost use Rattle.cam_recman.specs.Says.{FirstSays, EntrySays, SnapshotSays, MigratedSays, Version2IsLeft, Version2IsRecovered, Version2Says, SaidIsRecovered};
ghost use Rattle.cam_recman.specs.Migrating.{MigrationKeepsRecovery, MigrationHasTheFault, MigratedIsVersion2, MigrationIsOnce, WrittenIsMigrated, StoppedMigrationRecovers, UpgradeKeepsRecovery};

/// An entry that was written is read as its records, where the format has their version, and what is read as records is their bytes.
pub fn entries()
    ensures read { EntriesAreRead }
    ensures exactly { ReadIsWritten }
{}

/// Recovered is what the records of all entries say, and nothing else: the last count, exactly the outcomes that a record says, of each node
/// the greatest count that a record has seen, and what was secured, in order. One more entry adds what its records say, so a log that opens
/// as it was or with that entry (as `cam_log` says of one that was stopped while it appended) recovers as before or with it. A fault is that
/// of the first entry that is no list of records.
pub fn recovery()
    ensures recovered { RecoveryIsOfTheRecords }
    ensures outcomes { OutcomesAreThoseSaid }
    ensures held { HeldIsWhatWasSecured }
    ensures counts { CountsAreTheGreatest }
    ensures count { CountIsTheLast }
    ensures one_more { OneMoreEntryAdds }
    ensures written { WrittenEntryAdds }
    ensures stopped { StoppedAppendRecovers }
    ensures first { FaultIsTheFirst }
    ensures faulty { FirstIsTheFault }
{}

/// A log is brought to version 2 by one entry of a Version alone, which says nothing that is recovered. What is left recovers what was
/// recovered before, and so does a log that was stopped meanwhile; where nothing could be recovered, the fault is the same. To migrate once
/// is enough. An image that was written anew, migrated, is read as the migrated entries.
pub fn migration()
    ensures recovery { MigrationKeepsRecovery }
    ensures fault { MigrationHasTheFault }
    ensures version { MigratedIsVersion2 }
    ensures once { MigrationIsOnce }
    ensures written { WrittenIsMigrated }
    ensures stopped { StoppedMigrationRecovers }
    ensures upgrade { UpgradeKeepsRecovery }
{}

/// One entry can keep all that a node has: recovery of it gives that again.
pub fn snapshots()
    ensures keeps { SnapshotKeepsAll }
{}

/// Entries of version 2 can be recovered, and are left by a migration, after which all are such. A Version alone says nothing, one more entry
/// adds what its records say, and the entry that keeps all says all, alone.
pub fn version2()
    ensures first { FirstSays }
    ensures entry { EntrySays }
    ensures snapshot { SnapshotSays }
    ensures migrated { MigratedSays }
    ensures left { Version2IsLeft }
    ensures recovered { Version2IsRecovered }
    ensures says { Version2Says }
    ensures said { SaidIsRecovered }
{}
