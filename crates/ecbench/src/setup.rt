// What the lines of a script share.
use flash_dev::Geometry;
use std::alloc::Global;

/// Where memory comes from, and the geometry of the controller's flash.
#[derive(Drop)]
pub struct Setup {
    pub alloc: Global,
    pub geometry: Geometry,
}
