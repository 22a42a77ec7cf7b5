// The numbers of the service: one table, which both reader and writer go by.

#[derive(Clone, Copy)]
pub struct Numbers {
    pub ss_type: u16,
    pub invoke: u16,
    pub invoke_ack: u16,
    pub retrieve: u16,
    pub retrieve_ack: u16,
    pub invoke_causes: InvokeCauses,
    pub retrieve_causes: RetrieveCauses,
}

#[derive(Clone, Copy)]
pub struct InvokeCauses {
    pub not_subscribed: u16,
    pub limit_reached: u16,
    pub call_not_there: u16,
    pub already_on_hold: u16,
}

#[derive(Clone, Copy)]
pub struct RetrieveCauses {
    pub call_not_there: u16,
    pub not_on_hold: u16,
    pub no_channel: u16,
}

pub const NUMBERS: Numbers = Numbers {
    ss_type: 12,
    invoke: 4,
    invoke_ack: 5,
    retrieve: 6,
    retrieve_ack: 7,
    invoke_causes: InvokeCauses {
        not_subscribed: 1,
        limit_reached: 2,
        call_not_there: 3,
        already_on_hold: 4,
    },
    retrieve_causes: RetrieveCauses {
        call_not_there: 1,
        not_on_hold: 2,
        no_channel: 3,
    },
};
