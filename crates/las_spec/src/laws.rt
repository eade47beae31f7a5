// What the order of boxes is.
ghost use Rattle.las_spec.specs.Boxes.{ByVolumeIsOrder};

/// By volume, volumes do not fall, and those of each volume stand in their order.
pub fn by_volume_is_order()
    ensures { ByVolumeIsOrder }
{}
