//! What holds of every partition. Each law is a function's contract; the function does nothing.
ghost use Rattle.std.specs.Prelude.{◌≡◌, List, length};
ghost use Rattle.input_classes.specs.declared.class.Class.{Class};
ghost use Rattle.input_classes.specs.Partition.{Covers, HasMorePatterns, IsPartition, Partition, box_of_partition};

/// Each vector of a partition's box has a class, and each class has its witness in it.
pub fn partition_covers_its_box()
    ensures { (r : Partition) → IsPartition r → Covers (box_of_partition r) r }
{}

/// No more patterns than a partition has classes have a vector of its box.
pub fn partition_has_all_patterns()
    ensures { (r : Partition) → IsPartition r → HasMorePatterns (length r.classes) r.atoms r.ranges r.assumed → ⊥ }
{}

/// A box has one partition by given atoms.
pub fn partition_is_one()
    ensures { (r : Partition) (classes : List Class) → IsPartition r
        → IsPartition (record { atoms = r.atoms; ranges = r.ranges; assumed = r.assumed; classes = classes })
        → classes ≡ r.classes }
{}
