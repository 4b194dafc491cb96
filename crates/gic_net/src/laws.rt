//! Theorems over runs of `Net::switch`.
ghost use Rattle.gic_net.specs.SwitchingLaws.{NetworkStays, ItemsStandAsRowsSay, ElementsStandAsRowsSay};

/// A net in which all elements stood, switched by the rows of a list one by one, has the items and the elements
/// standing that reading all the rows at once tells.
pub fn net_switching_law()
    ensures network { NetworkStays }
    ensures items { ItemsStandAsRowsSay }
    ensures elements { ElementsStandAsRowsSay }
{}
