//! What the publishers of a list of versions come to.

ghost use Rattle.connection_laws.specs.Publishers.{EachIsOnes, NoneIsTwos, EachAscends};

/// Where each version that was published has a publisher, each is told by its own, no number is told by two, and none is told twice: those of
/// one publisher ascend.
pub fn each_version_has_one_publisher()
    ensures own { EachIsOnes }
    ensures one { NoneIsTwos }
    ensures once { EachAscends }
{}
