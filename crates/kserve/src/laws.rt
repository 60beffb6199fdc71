//! What holds of the definitions of `kserve`'s texts. The function does nothing: its contract is the law.
ghost use Rattle.std.specs.Prelude.{◌≡◌};
ghost use Rattle.kc_graph.specs.declared.limits.TheConstants.{MAX_VERTICES, MAX_ITEMS};
ghost use Rattle.kc_intake.specs.declared.limits.TheConstants.{MAX_CLIENTS};
ghost use Rattle.kserve.specs.declared.limits.TheConstants.{LINE_LIMIT, INPUT_LIMIT, CAPACITY};

/// States the limits that the definitions name, each as its number. By them there are at most 64 scripts, 1,048,576
/// updates in all, and 1,024 updates a batch.
pub fn limits_are()
    ensures line { LINE_LIMIT ≡ 65536 }
    ensures input { INPUT_LIMIT ≡ 1073741824 }
    ensures vertices { MAX_VERTICES ≡ 16777216 }
    ensures items { MAX_ITEMS ≡ 1048576 }
    ensures clients { MAX_CLIENTS ≡ 64 }
    ensures capacity { CAPACITY ≡ 1024 }
{}
