//! Records of numeric sensors and numeric effecters, read and written.

use crate::expect::expect_eq;
use crate::wire::records::both_ways;
use pldm_pdr::{
    Conversion, EffecterRange, Entity, NumericEffecter, NumericSensor, RangeFormat, Record,
    RecordData, SensorRange, Units,
};
use pldm_wire::Size;

const SENSOR: [u8; 72] = [
    0x03, 0x00, 0x00, 0x00, // record handle 3
    0x01, // header version
    0x02, // numeric sensor
    0x00, 0x00, // record change number
    0x3E, 0x00, // data length 62
    0x01, 0x00, // terminus handle
    0x05, 0x00, // sensor ID 5
    0x40, 0x00, // entity type 64
    0x01, 0x00, // entity instance
    0x64, 0x00, // container ID 100
    0x00, // no init
    0x01, // auxiliary names
    0x02, // base unit: degrees C
    0xFF, // unit modifier -1
    0x00, // rate unit: none
    0x00, // base OEM unit handle
    0x00, // auxiliary unit: none
    0x00, // auxiliary unit modifier
    0x00, // auxiliary rate unit
    0x00, // rel
    0x00, // auxiliary OEM unit handle
    0x01, // linear
    0x03, // data size: sint16
    0x00, 0x00, 0x80, 0x3F, // resolution 1.0
    0x00, 0x00, 0x00, 0x00, // offset 0.0
    0xF4, 0x01, // accuracy 500
    0x01, // plus tolerance
    0x02, // minus tolerance
    0x05, 0x00, // hysteresis 5
    0x03, // thresholds: upper warning and upper critical
    0x00, // volatility
    0x00, 0x00, 0x00, 0x3F, // state transition interval 0.5 s
    0x00, 0x00, 0x80, 0x3F, // update interval 1.0 s
    0xE2, 0x04, // max readable 1,250
    0x70, 0xFE, // min readable -400
    0x01, // range field format: sint8
    0x7F, // all range fields
    0x19, // nominal 25
    0x32, // normal max 50
    0xF6, // normal min -10
    0x46, // warning high 70
    0xEC, // warning low -20
    0x55, // critical high 85
    0xE2, // critical low -30
    0x64, // fatal high 100
    0xD8, // fatal low -40
];

fn sensor() -> NumericSensor {
    NumericSensor {
        terminus_handle: 1,
        sensor_id: 5,
        entity: Entity {
            entity_type: 64,
            instance: 1,
            container_id: 100,
        },
        init: 0,
        has_auxiliary_names: true,
        units: Units {
            base_unit: 2,
            unit_modifier: -1,
            rate_unit: 0,
            base_oem_unit_handle: 0,
            auxiliary_unit: 0,
            auxiliary_unit_modifier: 0,
            auxiliary_rate_unit: 0,
        },
        rel: 0,
        auxiliary_oem_unit_handle: 0,
        conversion: Conversion {
            is_linear: true,
            size: Size::Sint16,
            resolution: 0x3F80_0000,
            offset: 0,
            accuracy: 500,
            plus_tolerance: 1,
            minus_tolerance: 2,
        },
        hysteresis: 5,
        supported_thresholds: 3,
        threshold_and_hysteresis_volatility: 0,
        state_transition_interval: 0x3F00_0000,
        update_interval: 0x3F80_0000,
        max_readable: 1_250,
        min_readable: -400,
        range: SensorRange {
            format: RangeFormat::Number(Size::Sint8),
            support: 0x7F,
            nominal: 25,
            normal_max: 50,
            normal_min: -10,
            warning_high: 70,
            warning_low: -20,
            critical_high: 85,
            critical_low: -30,
            fatal_high: 100,
            fatal_low: -40,
        },
    }
}

#[test]
fn a_numeric_sensor(rt: HostRuntime) {
    both_ways(&rt, &SENSOR, 3, 0, RecordData::NumericSensor(sensor()));
}

/// Whether there is a record of this sensor.
fn is_made(sensor: NumericSensor) -> bool {
    Record::new(3, 0, RecordData::NumericSensor(sensor)).is_some()
}

#[test]
fn numbers_that_do_not_fit(rt: HostRuntime) {
    let mut high = sensor();
    high.max_readable = 32_768;
    expect_eq(&rt, is_made(high), false, "max readable");
    let mut low = sensor();
    low.range.fatal_low = -129;
    expect_eq(&rt, is_made(low), false, "fatal low");
}

const EFFECTER: [u8; 78] = [
    0x04, 0x00, 0x00, 0x00, // record handle 4
    0x01, // header version
    0x09, // numeric effecter
    0x00, 0x00, // record change number
    0x44, 0x00, // data length 68
    0x01, 0x00, // terminus handle
    0x06, 0x00, // effecter ID 6
    0x1D, 0x00, // entity type 29, a fan
    0x01, 0x00, // entity instance
    0x64, 0x00, // container ID 100
    0x00, 0x00, // semantic ID
    0x00, // no init
    0x00, // no auxiliary names
    0x41, // base unit: percent
    0x00, // unit modifier
    0x00, // rate unit
    0x00, // base OEM unit handle
    0x00, // auxiliary unit
    0xFD, // auxiliary unit modifier -3
    0x00, // auxiliary rate unit
    0x00, // auxiliary OEM unit handle
    0x00, // not linear
    0x00, // data size: uint8
    0x00, 0x00, 0x00, 0x3F, // resolution 0.5
    0x00, 0x00, 0x80, 0xBF, // offset -1.0
    0x00, 0x00, // accuracy
    0x00, // plus tolerance
    0x00, // minus tolerance
    0x00, 0x00, 0x80, 0x3F, // state transition interval 1.0 s
    0x00, 0x00, 0x00, 0x40, // transition interval 2.0 s
    0xC8, // max settable 200
    0x0A, // min settable 10
    0x06, // range field format: real32
    0x1F, // all range fields
    0x00, 0x00, 0x80, 0x3F, // nominal 1.0
    0x00, 0x00, 0x00, 0x40, // normal max 2.0
    0x00, 0x00, 0x00, 0x3F, // normal min 0.5
    0x00, 0x00, 0x80, 0x40, // rated max 4.0
    0x00, 0x00, 0x80, 0xBF, // rated min -1.0
];

fn effecter() -> NumericEffecter {
    NumericEffecter {
        terminus_handle: 1,
        effecter_id: 6,
        entity: Entity {
            entity_type: 29,
            instance: 1,
            container_id: 100,
        },
        semantic_id: 0,
        init: 0,
        has_auxiliary_names: false,
        units: Units {
            base_unit: 65,
            unit_modifier: 0,
            rate_unit: 0,
            base_oem_unit_handle: 0,
            auxiliary_unit: 0,
            auxiliary_unit_modifier: -3,
            auxiliary_rate_unit: 0,
        },
        auxiliary_oem_unit_handle: 0,
        conversion: Conversion {
            is_linear: false,
            size: Size::Uint8,
            resolution: 0x3F00_0000,
            offset: 0xBF80_0000,
            accuracy: 0,
            plus_tolerance: 0,
            minus_tolerance: 0,
        },
        state_transition_interval: 0x3F80_0000,
        transition_interval: 0x4000_0000,
        max_settable: 200,
        min_settable: 10,
        range: EffecterRange {
            format: RangeFormat::Real32,
            support: 0x1F,
            nominal: 0x3F80_0000,
            normal_max: 0x4000_0000,
            normal_min: 0x3F00_0000,
            rated_max: 0x4080_0000,
            rated_min: 0xBF80_0000,
        },
    }
}

#[test]
fn a_numeric_effecter(rt: HostRuntime) {
    both_ways(
        &rt,
        &EFFECTER,
        4,
        0,
        RecordData::NumericEffecter(effecter()),
    );
}
