use crate::caller_handle::CallerHandle;
use crate::monitor_handle::MonitorHandle;
use crate::table_handle::TableHandle;
use model_callers::ModelCaller;
use model_checks::ModelCheck;

/// What a program in another language holds: a table, one of its callers, one of its monitors, one
/// of its callers whose calls a model judges, or a check of a history by a model.
/// `Spare` fills a box that has none of them yet: memory for the box is taken before a caller
/// leaves its table.
#[derive(Drop)]
pub enum Handle {
    Spare,
    Table(TableHandle),
    Caller(CallerHandle),
    Monitor(MonitorHandle),
    Modelled(ModelCaller),
    Model(ModelCheck),
}
