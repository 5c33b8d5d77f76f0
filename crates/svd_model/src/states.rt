ghost use Rattle.std.specs.Prelude.{◌≡◌};
ghost use Rattle.svd_model.specs.Facts.{IsDescribed, IsDerived, IsUnfolded, IsChecked};
ghost use Rattle.svd_model.specs.Trees.{device_rows};

use crate::device::Device;
use std::marker::Model;

/// A device as a description gives it. Contracts see it as its flat list of rows.
#[derive(Drop)]
pub struct Described {
    device: Device,
}

impl Model for Described {
    ghost use Rattle.std.specs.Prelude.{List};
    ghost use Rattle.svd_rows.specs.Rows.{Row};
    ghost use Rattle.svd_model.specs.Keys.{Key};
    ghost use Rattle.svd_model.specs.Steps.{Step};
    ghost use Rattle.svd_model.specs.Trees.{device_rows};
    ghost use Rattle.svd_model.specs.Facts.{IsDescribed};

    ghost Value = { List (Row Step Key) };

    ghost view = { λ state. device_rows state.device };

    ghost invariant = { λ state. IsDescribed state.device };
}

impl Described {
    /// The device in this state. Its condition is what the state says of a device.
    pub fn new(device: Device) -> Described
        requires { IsDescribed device }
        ensures { result ≡ device_rows device }
    {
        Described { device }
    }

    /// The device, which has the same rows.
    pub fn device(&self) -> &Device
        ensures rows { device_rows result.now ≡ self.now }
        ensures fact { IsDescribed result.now }
    {
        &self.device
    }

    /// The device itself, out of its state.
    pub fn into_device(self) -> Device
        ensures rows { device_rows result ≡ self }
        ensures fact { IsDescribed result }
    {
        self.device
    }
}

/// A device to which a patch was applied. Contracts see it as its flat list of rows.
#[derive(Drop)]
pub struct Patched {
    device: Device,
}

impl Model for Patched {
    ghost use Rattle.std.specs.Prelude.{List};
    ghost use Rattle.svd_rows.specs.Rows.{Row};
    ghost use Rattle.svd_model.specs.Keys.{Key};
    ghost use Rattle.svd_model.specs.Steps.{Step};
    ghost use Rattle.svd_model.specs.Trees.{device_rows};
    ghost use Rattle.svd_model.specs.Facts.{IsDescribed};

    ghost Value = { List (Row Step Key) };

    ghost view = { λ state. device_rows state.device };

    ghost invariant = { λ state. IsDescribed state.device };
}

impl Patched {
    /// The device in this state. Its condition is what the state says of a device.
    pub fn new(device: Device) -> Patched
        requires { IsDescribed device }
        ensures { result ≡ device_rows device }
    {
        Patched { device }
    }

    /// The device, which has the same rows.
    pub fn device(&self) -> &Device
        ensures rows { device_rows result.now ≡ self.now }
        ensures fact { IsDescribed result.now }
    {
        &self.device
    }

    /// The device itself, out of its state.
    pub fn into_device(self) -> Device
        ensures rows { device_rows result ≡ self }
        ensures fact { IsDescribed result }
    {
        self.device
    }
}

/// A device in which each element has what it takes from its source. Contracts see it as its flat list of rows.
#[derive(Drop)]
pub struct Derived {
    device: Device,
}

impl Model for Derived {
    ghost use Rattle.std.specs.Prelude.{List};
    ghost use Rattle.svd_rows.specs.Rows.{Row};
    ghost use Rattle.svd_model.specs.Keys.{Key};
    ghost use Rattle.svd_model.specs.Steps.{Step};
    ghost use Rattle.svd_model.specs.Trees.{device_rows};
    ghost use Rattle.svd_model.specs.Facts.{IsDerived};

    ghost Value = { List (Row Step Key) };

    ghost view = { λ state. device_rows state.device };

    ghost invariant = { λ state. IsDerived state.device };
}

impl Derived {
    /// The device in this state. Its condition is what the state says of a device.
    pub fn new(device: Device) -> Derived
        requires { IsDerived device }
        ensures { result ≡ device_rows device }
    {
        Derived { device }
    }

    /// The device, which has the same rows.
    pub fn device(&self) -> &Device
        ensures rows { device_rows result.now ≡ self.now }
        ensures fact { IsDerived result.now }
    {
        &self.device
    }

    /// The device itself, out of its state.
    pub fn into_device(self) -> Device
        ensures rows { device_rows result ≡ self }
        ensures fact { IsDerived result }
    {
        self.device
    }
}

/// A device in which each list has become its members. Contracts see it as its flat list of rows.
#[derive(Drop)]
pub struct Unfolded {
    device: Device,
}

impl Model for Unfolded {
    ghost use Rattle.std.specs.Prelude.{List};
    ghost use Rattle.svd_rows.specs.Rows.{Row};
    ghost use Rattle.svd_model.specs.Keys.{Key};
    ghost use Rattle.svd_model.specs.Steps.{Step};
    ghost use Rattle.svd_model.specs.Trees.{device_rows};
    ghost use Rattle.svd_model.specs.Facts.{IsUnfolded};

    ghost Value = { List (Row Step Key) };

    ghost view = { λ state. device_rows state.device };

    ghost invariant = { λ state. IsUnfolded state.device };
}

impl Unfolded {
    /// The device in this state. Its condition is what the state says of a device.
    pub fn new(device: Device) -> Unfolded
        requires { IsUnfolded device }
        ensures { result ≡ device_rows device }
    {
        Unfolded { device }
    }

    /// The device, which has the same rows.
    pub fn device(&self) -> &Device
        ensures rows { device_rows result.now ≡ self.now }
        ensures fact { IsUnfolded result.now }
    {
        &self.device
    }

    /// The device itself, out of its state.
    pub fn into_device(self) -> Device
        ensures rows { device_rows result ≡ self }
        ensures fact { IsUnfolded result }
    {
        self.device
    }
}

/// A device whose addresses and names were checked. Contracts see it as its flat list of rows.
#[derive(Drop)]
pub struct Checked {
    device: Device,
}

impl Model for Checked {
    ghost use Rattle.std.specs.Prelude.{List};
    ghost use Rattle.svd_rows.specs.Rows.{Row};
    ghost use Rattle.svd_model.specs.Keys.{Key};
    ghost use Rattle.svd_model.specs.Steps.{Step};
    ghost use Rattle.svd_model.specs.Trees.{device_rows};
    ghost use Rattle.svd_model.specs.Facts.{IsChecked};

    ghost Value = { List (Row Step Key) };

    ghost view = { λ state. device_rows state.device };

    ghost invariant = { λ state. IsChecked state.device };
}

impl Checked {
    /// The device in this state. Its condition is what the state says of a device.
    pub fn new(device: Device) -> Checked
        requires { IsChecked device }
        ensures { result ≡ device_rows device }
    {
        Checked { device }
    }

    /// The device, which has the same rows.
    pub fn device(&self) -> &Device
        ensures rows { device_rows result.now ≡ self.now }
        ensures fact { IsChecked result.now }
    {
        &self.device
    }

    /// The device itself, out of its state.
    pub fn into_device(self) -> Device
        ensures rows { device_rows result ≡ self }
        ensures fact { IsChecked result }
    {
        self.device
    }
}
